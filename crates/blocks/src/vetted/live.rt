// Lanes of row i's group: lit lanes are put out where the row differs from row i in a column of the group. `live` has 1 for a
// lane that is lit. `gone` has 0 for a row that is not gone. `by` has the row that is named for a row, or 1024 for none yet.
ghost use Rattle.std.specs.Prelude.{◌≡◌, ◌*◌, ◌≤◌, ◌<◌, length};
ghost use Rattle.rows.specs.Keys.{Keyed};
ghost use Rattle.lanes.specs.Lit.{free, pending};
ghost use Rattle.blocks.specs.Alive.{Columned, Grouped, Alive, Above, Beyond};

use crate::vetted::prepared::Blocks;
use lanes::vetted::equal::{equal_lanes, key_lanes};
use lanes::vetted::lit::{any_lit, free_lanes, pending_lanes};

impl Blocks<'_> {
    // The rows of block b that are not gone, in row i's group.
    #[tactic(auto, using(crate::proofs::Grouping::alive, crate::proofs::Grouping::lit_free, crate::proofs::Grouping::free_off))]
    pub fn free_alive(&self, i: usize, b: usize, gone: &[u8], live: &mut [u8])
        requires row { i < self.now.rows.n }
        requires block { b * 64 < self.now.rows.n }
        requires lanes { 64 ≤ length live.old }
        requires room { length gone.now ≡ 1024 }
        requires above { Above self.now.rows.n gone.now }
        requires keyed { Keyed self.now.group self.now.rows.columns self.now.rows.cells.now self.now.rows.n self.now.keys.now }
        ensures { Alive self.now.group self.now.rows.columns self.now.rows.cells.now self.now.rows.n
            i b (free gone.now (b * 64)) live.new }
    {
        free_lanes(gone, b * 64, live);
        self.group_lanes(i, b, live);
    }

    // The rows of block b that are gone and have no name, in row i's group.
    // As it is: 1024 is no name and 0 not gone, of which crate lanes compares 64 at once: no plainer as an Option.
    #[tactic(auto, using(crate::proofs::Grouping::alive, crate::proofs::Grouping::lit_pending, crate::proofs::Grouping::pending_off))]
    pub fn waiting(&self, i: usize, b: usize, gone: &[u8], by: &[u16], waits: &mut [u8])
        requires row { i < self.now.rows.n }
        requires block { b * 64 < self.now.rows.n }
        requires lanes { 64 ≤ length waits.old }
        requires room { length gone.now ≡ 1024 }
        requires names { length by.now ≡ 1024 }
        requires beyond { Beyond self.now.rows.n by.now }
        requires keyed { Keyed self.now.group self.now.rows.columns self.now.rows.cells.now self.now.rows.n self.now.keys.now }
        ensures { Alive self.now.group self.now.rows.columns self.now.rows.cells.now self.now.rows.n
            i b (pending gone.now by.now (b * 64)) waits.new }
    {
        pending_lanes(gone, by, b * 64, waits);
        self.group_lanes(i, b, waits);
    }

    // Puts out the lanes that are not in row i's group. Rows of one group have one key, so that most blocks are left at once
    // where groups are many.
    #[tactic(auto, using(crate::proofs::Grouping::grouped_all, crate::proofs::Grouping::grouped_keyed, crate::proofs::Grouping::grouped_dark))]
    fn group_lanes(&self, i: usize, b: usize, live: &mut [u8])
        requires row { i < self.now.rows.n }
        requires block { b * 64 < self.now.rows.n }
        requires lanes { 64 ≤ length live.old }
        requires keyed { Keyed self.now.group self.now.rows.columns self.now.rows.cells.now self.now.rows.n self.now.keys.now }
        ensures { Grouped self.now.group self.now.rows.columns self.now.rows.cells.now self.now.rows.n
            i b self.now.rows.columns live.old live.new }
    {
        if self.group == 0 {
            return;
        }
        key_lanes(self.keys, b * 64, self.keys[i], live);
        if any_lit(live) {
            self.column_lanes(i, b, live);
        }
    }

    // Puts out the lanes that differ from row i in a column of the group.
    #[tactic(auto, using(crate::proofs::Grouping::grouped_none, crate::proofs::Grouping::grouped_more))]
    fn column_lanes(&self, i: usize, b: usize, live: &mut [u8])
        requires row { i < self.now.rows.n }
        requires block { b * 64 < self.now.rows.n }
        requires lanes { 64 ≤ length live.old }
        ensures { Grouped self.now.group self.now.rows.columns self.now.rows.cells.now self.now.rows.n
            i b self.now.rows.columns live.old live.new }
    {
        for c in 0..self.rows.columns {
            self.group_column(i, b, c, live);
        }
    }

    // Puts out the lanes that differ from row i in column c, where it is of the group.
    #[tactic(auto, using(crate::proofs::Grouping::columned_skip))]
    fn group_column(&self, i: usize, b: usize, c: usize, live: &mut [u8])
        requires row { i < self.now.rows.n }
        requires block { b * 64 < self.now.rows.n }
        requires column { c < self.now.rows.columns }
        requires lanes { 64 ≤ length live.old }
        ensures { Columned self.now.group self.now.rows.columns self.now.rows.cells.now self.now.rows.n i b c live.old live.new }
    {
        if (self.group >> c) % 2 == 1 {
            let v = self.values[i / 64 * 512 + c * 64 + i % 64];
            equal_lanes(self.values, b * 512 + c * 64, v, live);
        }
    }
}
