// Which row is named for each row that is gone. A row that waits goes through the blocks until a kept row beats it, or the
// kept rows, in rising order, name the rows that they beat and that have no name: either way each has the lowest. `by` has the
// row that is named for a row, or 1024 for none yet.
// As it is: `Option<u16>` is no plainer in a buffer of which lanes and blocks compare and write 64 entries at a time.
ghost use Rattle.std.specs.Prelude.{◌≤◌, length};
ghost use Rattle.blocks.specs.Alive.{Beyond};
ghost use Rattle.laws.specs.Named.{Named};
ghost use Rattle.parts.specs.Beats.{beats_of};

use crate::kept::Kept;

impl Kept<'_> {
    // All rows that wait get their name, by whichever way goes through fewer blocks.
    pub fn name(&self, by: &mut [u16; 1024], codes: &mut [u8])
        requires codes { 8192 ≤ length codes.old }
        requires beyond { Beyond self.now.of.rows.n by.old }
        requires named { Named (beats_of self.now.of) self.now.of.rows.n 0 by.old }
        ensures { Named (beats_of self.now.of) self.now.of.rows.n self.now.of.rows.n by.new }
    {
        if self.few_wait(by) {
            self.by_rows(by, codes);
        } else {
            self.by_kept_rows(by, codes);
        }
    }

    // Fewer rows wait than are kept. Both are counted without a branch, many rows at once.
    fn few_wait(&self, by: &[u16; 1024]) -> bool {
        let mut wait = 0u16;
        let mut kept = 0u16;
        for j in 0..self.of.rows.n {
            wait += ((self.gone[j] != 0) & (by[j] == 1024)) as u16;
            kept += (self.gone[j] == 0) as u16;
        }
        wait < kept
    }
}
