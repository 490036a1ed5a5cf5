// The codes of row i against the rows of block b under the asked term, from those under each record beneath it, upward.
ghost use Rattle.std.specs.Prelude.{◌+◌, ◌*◌, ◌<◌, ◌≤◌, length, get_or};
ghost use Rattle.plan.specs.declared.vetted.exit_masks.Exit.TheVariants.{Nothing};
ghost use Rattle.blocks.specs.Blocks.{RecordTold, AskedCoded};

use crate::vetted::prepared::Blocks;
use lanes::vetted::known::{all_known, put_known, start_known, tell_lanes};
use plan::vetted::exit_masks::Exit;

impl Blocks<'_> {
    // The asked term's codes in the lanes that are lit, from what the records up to it tell.
    pub fn block_codes(&self, i: usize, b: usize, live: &[u8], codes: &mut [u8])
        requires row { i < self.now.rows.n }
        requires block { b * 64 < self.now.rows.n }
        requires lanes { 64 ≤ length live.now }
        requires room { 8192 ≤ length codes.old }
        ensures { AskedCoded self.now.of.table.now self.now.term self.now.rows.columns self.now.rows.cells.now self.now.rows.n
            i b live.now codes.new }
    {
        let mut known = [0u8; 64];
        start_known(live, &mut known);
        let mut k = 0u8;
        // As it is: the next record is ends[k], which no range gives.
        while k <= self.term {
            let at = k as usize;
            if self.marks[at] {
                self.record_codes(i, b, k, codes);
                if self.tell(k, codes, &mut known) {
                    break;
                }
            }
            k = self.ends[at];
        }
        put_known(&known, codes, (self.term as usize) * 64);
    }

    // Record k tells. Says whether nothing can be added in any lane; it looks only where that is likely to pay.
    #[tactic(auto, unfolding(plan::specs::Exits::mask_at))]
    fn tell(&self, k: u8, codes: &[u8], known: &mut [u8]) -> bool
        requires below { k ≤ self.now.term }
        requires room { k * 64 + 64 ≤ length codes.now }
        requires lanes { 64 ≤ length known.old }
        ensures { RecordTold (get_or self.now.exits.now k Nothing) codes.now k known.old known.new result }
    {
        let mask = self.exits[k as usize];
        if mask.is_nothing() {
            return false;
        }
        tell_lanes(mask, codes, (k as usize) * 64, known);
        self.pays(k, mask) && all_known(known)
    }

    // Whether a block may well end at record k: at the left part of a PRIOR, or where some records are left.
    fn pays(&self, k: u8, mask: Exit) -> bool
        requires { k ≤ self.now.term }
    {
        matches!(mask, Exit::All | Exit::TurnedAll) || self.term - k >= 4
    }
}
