// Two rows of a run compared under one record beneath the asked term: a base record's code comes from the rows' values and
// ranks, a compound's from its parts' codes. Each function asks what was prepared before. Codes: same 0, first better 1,
// second better 2, unranked 3.
// As it is: a code is a number, no enum. That is no plainer: its two bits are a set, which `|` joins with another's.
ghost use Rattle.std.specs.Prelude.{◌≡◌, true};
ghost use Rattle.model.specs.Record.{record_at};
ghost use Rattle.model.specs.Term.{term_at};
ghost use Rattle.laws.specs.Codes.{code};
ghost use Rattle.plan.specs.Ops.{step_of};
ghost use Rattle.pairs.specs.Pairs.{RecordOf, CodesBelow, is_base, op_code};

use crate::pair::Pair;
use crate::values::{by_rank, explicit_code};
use plan::vetted::ops::{Op, Step};
use terms::codes::{prior_code, turned_code};

impl Pair<'_> {
    // The code of marked record k from the rows' values and ranks, or from the codes of its parts.
    #[inline(always)]
    pub fn record_code(&self, k: u8, codes: &[u8; 128]) -> u8
        requires record_of { RecordOf self.now.of.now.table.now self.now.of.now.marks.now self.now.of.now.term k }
        requires below { CodesBelow self.now.of.now.table.now self.now.of.now.marks.now self.now.first.now
            self.now.second.now k codes.now }
        ensures { result ≡ code (term_at self.now.of.now.table.now k) self.now.first.now self.now.second.now }
    {
        let step = self.of.ops[k as usize];
        match step.op {
            Op::ByRank | Op::Places => self.values_code(k, step),
            op => joined(op, codes[step.left as usize], codes[step.right as usize]),
        }
    }

    // The code of the rows' values in the column of base record k.
    #[inline(always)]
    fn values_code(&self, k: u8, step: Step) -> u8
        requires record_of { RecordOf self.now.of.now.table.now self.now.of.now.marks.now self.now.of.now.term k }
        requires step { step ≡ step_of (record_at self.now.of.now.table.now k) }
        requires base { is_base step.op ≡ true }
        ensures { result ≡ code (term_at self.now.of.now.table.now k) self.now.first.now self.now.second.now }
    {
        let v = self.first[step.left as usize];
        let w = self.second[step.left as usize];
        if v == w {
            return 0;
        }
        let x = self.of.rank_at(self.i, k);
        let y = self.of.rank_at(self.j, k);
        match step.op {
            Op::Places => {
                let e = self.of.ends[k as usize];
                explicit_code(self.of.table, self.of.reach, k, e, v, w, x, y)
            }
            _ => by_rank(x, y),
        }
    }
}

// A compound's code from its parts'.
fn joined(op: Op, a: u8, b: u8) -> u8
    ensures { result ≡ op_code op a b }
{
    match op {
        Op::Join => a | b,
        Op::Prior => prior_code(a, b),
        _ => turned_code(a),
    }
}
