// The lowest kept row of a block of 64 rows that beats a row. `live` has 1 for a lane that is lit.
ghost use Rattle.std.specs.Prelude.{◌≡◌, ℕ, false, ◌+◌, ◌*◌, ◌≤◌, ◌<◌, length};
ghost use Rattle.std.specs.Option.{MatchOption};
ghost use Rattle.lanes.specs.Lit.{hit};
ghost use Rattle.parts.specs.Beats.{beats_of};
ghost use Rattle.parts.specs.LowestIn.{FirstHit, LowestIn};

use crate::kept::Kept;
use lanes::vetted::lit::{any_hit, any_lit};

impl Kept<'_> {
    // The lane of the lowest kept row of block b that beats row i, if there is one.
    pub fn better_in_block(&self, i: usize, b: usize, codes: &mut [u8]) -> Option<usize>
        requires row { i < self.now.of.rows.n }
        requires block { b * 64 < self.now.of.rows.n }
        requires codes { 8192 ≤ length codes.old }
        ensures { LowestIn (beats_of self.now.of) self.now.of.rows.n i (b * 64) result }
    {
        let gone = self.gone;
        let mut live = [0u8; 64];
        self.of.free_alive(i, b, gone, &mut live);
        if any_lit(&live) {
            self.of.block_codes(i, b, &live, codes);
            let top = (self.of.term as usize) * 64;
            if any_hit(&live, codes, top, 2) {
                return lowest_hit(&live, codes, top);
            }
        }
        None
    }
}

// The lowest lit lane with code 2, if there is one.
fn lowest_hit(live: &[u8], codes: &[u8], top: usize) -> Option<usize>
    requires live_room { 64 ≤ length live.now }
    requires codes_room { top + 64 ≤ length codes.now }
    ensures { MatchOption result ((j : ℕ) → j < 64 → hit live.now codes.now top 2 j ≡ false) (FirstHit live.now codes.now top) }
{
    (0..64).find(|&j| (live[j] == 1) & (codes[top + j] == 2))
}
