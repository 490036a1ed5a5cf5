// The lowest kept row that beats a row: the row goes through the blocks of 64 rows until one has a kept row that beats it.
ghost use Rattle.std.specs.Prelude.{◌≡◌, ◌≤◌, ◌<◌, length};
ghost use Rattle.std.specs.Option.{IfSome, IfNone};
ghost use Rattle.laws.specs.Named.{named, Named};
ghost use Rattle.parts.specs.Beats.{beats_of};

use crate::kept::Kept;

impl Kept<'_> {
    // Every row that is gone and has no name gets one, row after row.
    pub fn by_rows(&self, by: &mut [u16; 1024], codes: &mut [u8])
        requires codes { 8192 ≤ length codes.old }
        requires named { Named (beats_of self.now.of) self.now.of.rows.n 0 by.old }
        ensures { Named (beats_of self.now.of) self.now.of.rows.n self.now.of.rows.n by.new }
    {
        for i in 0..self.of.rows.n {
            if self.gone[i] != 0 && by[i] == 1024 {
                if let Some(name) = self.lowest(i, codes) {
                    by[i] = name;
                }
            }
        }
    }

    // The lowest kept row that beats row i, if there is one.
    #[tactic(auto, using(crate::proofs::ByBlocks::none_more, crate::proofs::ByBlocks::lowest_here, crate::proofs::ByBlocks::lowest_none))]
    fn lowest(&self, i: usize, codes: &mut [u8]) -> Option<u16>
        requires row { i < self.now.of.rows.n }
        requires codes { 8192 ≤ length codes.old }
        ensures some { IfSome result (λ name. name ≡ named (beats_of self.now.of) self.now.of.rows.n self.now.of.rows.n i) }
        ensures none { IfNone result (named (beats_of self.now.of) self.now.of.rows.n self.now.of.rows.n i ≡ 1024) }
    {
        for b in 0..self.of.rows.n.div_ceil(64) {
            if let Some(lane) = self.better_in_block(i, b, codes) {
                return Some((b * 64 + lane) as u16);
            }
        }
        None
    }
}
