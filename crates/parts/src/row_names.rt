// A kept row names the rows that it beats and that have no name; a row that is gone names none.
ghost use Rattle.std.specs.Prelude.{◌≡◌, ◌+◌, ◌≤◌, ◌<◌, length, get_or};
ghost use Rattle.blocks.specs.Alive.{Beyond};
ghost use Rattle.laws.specs.Named.{Named};
ghost use Rattle.parts.specs.Beats.{beats_of};

use crate::kept::Kept;

impl Kept<'_> {
    // All kept rows name, in rising order.
    #[tactic(auto, using(crate::proofs::Names::named_gone))]
    pub fn by_kept_rows(&self, by: &mut [u16; 1024], codes: &mut [u8])
        requires codes { 8192 ≤ length codes.old }
        requires beyond { Beyond self.now.of.rows.n by.old }
        requires named { Named (beats_of self.now.of) self.now.of.rows.n 0 by.old }
        ensures { Named (beats_of self.now.of) self.now.of.rows.n self.now.of.rows.n by.new }
    {
        for i in 0..self.of.rows.n {
            if self.gone[i] == 0 {
                self.name_row(i, by, codes);
            }
        }
    }

    // Row i, which is kept, names the rows that it beats.
    fn name_row(&self, i: usize, by: &mut [u16; 1024], codes: &mut [u8])
        requires row { i < self.now.of.rows.n }
        requires codes { 8192 ≤ length codes.old }
        requires kept { get_or self.now.gone.now i 0 ≡ 0 }
        requires beyond { Beyond self.now.of.rows.n by.old }
        requires named { Named (beats_of self.now.of) self.now.of.rows.n i by.old }
        ensures named { Named (beats_of self.now.of) self.now.of.rows.n (i + 1) by.new }
        ensures beyond { Beyond self.now.of.rows.n by.new }
    {
        for b in 0..self.of.rows.n.div_ceil(64) {
            self.name_block(i, b, by, codes);
        }
    }
}
