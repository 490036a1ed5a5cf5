// The codes of row i against the rows of block b under record k: a base record's come from ranks and values, a compound's from
// its parts' codes and nothing else.
ghost use Rattle.std.specs.Prelude.{◌+◌, ◌≤◌, length};
ghost use Rattle.blocks.specs.Ready.{AtRecord, Coded};

use crate::base::BaseBlock;
use crate::vetted::prepared::Blocks;
use lanes::vetted::compound::compound_lanes;
use model::Record;
use terms::vetted::run::Run;

impl Blocks<'_> {
    // The codes of record k, from those of the records below.
    #[tactic(auto, using(crate::proofs::OfCompound::compound_coded))]
    #[inline(always)]
    pub(crate) fn record_codes(&self, i: usize, b: usize, k: u8, codes: &mut [u8])
        requires here { AtRecord self.now.marks.now self.now.term self.now.rows.n i b k }
        requires room { 8192 ≤ length codes.old }
        requires below { Coded self.now.of.table.now self.now.marks.now self.now.rows.columns self.now.rows.cells.now
            self.now.rows.n i b k codes.old }
        ensures { Coded self.now.of.table.now self.now.marks.now self.now.rows.columns self.now.rows.cells.now
            self.now.rows.n i b (k + 1) codes.new }
    {
        match self.of.record(k) {
            Record::Base(column, base) => {
                let at = (k as usize) * 64;
                let from = (column as usize) * 64;
                let block = BaseBlock {
                    run: Run {
                        of: self.of,
                        k,
                        e: self.ends[k as usize],
                    },
                    reach: self.reach,
                    base,
                    ranks: self.ranks,
                    ranks_at: b * self.stride + at,
                    rank: self.ranks[i / 64 * self.stride + at + i % 64],
                    values: self.values,
                    values_at: b * 512 + from,
                    value: self.values[i / 64 * 512 + from + i % 64],
                };
                block.base_codes(codes);
            }
            Record::Compound(c) => compound_lanes(c, codes, k, 64),
            Record::Value(_) | Record::Unknown => {}
        }
    }
}
