// One block of a kept row's naming.
ghost use Rattle.std.specs.Prelude.{◌≡◌, ◌+◌, ◌*◌, ◌≤◌, ◌<◌, length, get_or};
ghost use Rattle.blocks.specs.Alive.{Beyond};
ghost use Rattle.parts.specs.Beats.{beats_of};
ghost use Rattle.parts.specs.Naming.{Naming};

use crate::kept::Kept;
use lanes::vetted::lit::any_lit;
use lanes::vetted::marks::name_lanes;

impl Kept<'_> {
    // Row i, which is kept, names the rows of block b that it beats and that have no name.
    pub fn name_block(&self, i: usize, b: usize, by: &mut [u16; 1024], codes: &mut [u8])
        requires row { i < self.now.of.rows.n }
        requires block { b * 64 < self.now.of.rows.n }
        requires codes { 8192 ≤ length codes.old }
        requires kept { get_or self.now.gone.now i 0 ≡ 0 }
        requires beyond { Beyond self.now.of.rows.n by.old }
        requires naming { Naming (beats_of self.now.of) self.now.of.rows.n i (b * 64) by.old }
        ensures naming { Naming (beats_of self.now.of) self.now.of.rows.n i (b * 64 + 64) by.new }
        ensures beyond { Beyond self.now.of.rows.n by.new }
    {
        let gone = self.gone;
        let mut live = [0u8; 64];
        self.of.waiting(i, b, gone, by, &mut live);
        if any_lit(&live) {
            self.of.block_codes(i, b, &live, codes);
            let top = (self.of.term as usize) * 64;
            name_lanes(by, b * 64, &live, codes, top, i as u16);
        }
    }
}
