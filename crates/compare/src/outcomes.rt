// Two rows compared under a term record of an accepted table: one loop over the records upward from 0 to the asked term, with
// a code for each. Codes: same 0, first better 1, second better 2, unranked 3.
ghost use Rattle.std.specs.Prelude.{◌≡◌, get_or};
ghost use Rattle.model.specs.Record.{record_at};
ghost use Rattle.model.specs.Term.{term_at};
ghost use Rattle.model.specs.Compare.{outcome};
ghost use Rattle.laws.specs.Runs.{values_between};
ghost use Rattle.laws.specs.Codes.{outcome_of, joined_code};
ghost use Rattle.compare.specs.Rows.{Ready, RecordReady, PartsBelow, record_code, compound_code};

use crate::vetted::base_terms::base_code;
use model::{CompoundTerm, Outcome, Pair, Record};
use terms::codes::{prior_code, turned_code};
use terms::vetted::run::{Numbered, Run};

// Two rows under a term, with what is prepared of the table's values (`prepared` of `terms`).
#[derive(Clone, Copy)]
pub struct Comparison<'n, 'a> {
    pub of: Numbered<'n>,
    pub ends: &'a [u8; 128],
    pub reach: &'a [[bool; 32]],
    pub term: u8,
    pub first: &'a [i32],
    pub second: &'a [i32],
    pub ghost ready: { Ready of.table.now of.numbers.now ends.now reach.now term first.now second.now },
}

impl Comparison<'_, '_> {
    // The outcome of the first row against the second.
    pub fn outcome(&self) -> Outcome
        ensures { result ≡ outcome (term_at self.now.of.table.now self.now.term) self.now.first.now self.now.second.now }
    {
        let mut codes = [0u8; 128];
        for k in 0..=self.term {
            codes[k as usize] = record_code(
                &self.of,
                self.ends,
                self.reach,
                &codes,
                k,
                self.first,
                self.second,
            );
        }
        outcome_of(codes[self.term as usize])
    }
}

// The code of record k from the rows, or from the codes of its parts.
fn record_code(
    of: &Numbered,
    ends: &[u8; 128],
    reach: &[[bool; 32]],
    codes: &[u8; 128],
    k: u8,
    first: &[i32],
    second: &[i32],
) -> u8
    requires { RecordReady of.now.table.now of.now.numbers.now ends.now reach.now k first.now second.now }
    ensures { result ≡ record_code (record_at of.now.table.now k)
        (values_between of.now.table.now k (get_or ends.now k 0))
        (λ i. get_or codes.now i 0) first.now second.now }
{
    match of.record(k) {
        Record::Base(column, b) => {
            let run = Run {
                of: *of,
                k,
                e: ends[k as usize],
            };
            let c = column as usize;
            base_code(&run, reach, b, first[c], second[c])
        }
        Record::Compound(c) => compound_code(c, codes),
        Record::Value(_) | Record::Unknown => 0,
    }
}

// The code of a compound from those of its parts.
pub fn compound_code(c: CompoundTerm, codes: &[u8; 128]) -> u8
    requires { PartsBelow 128 c }
    ensures { result ≡ compound_code c (λ i. get_or codes.now i 0) }
{
    match c {
        CompoundTerm::Joined(op, p, q) => joined_code(op, codes[p as usize], codes[q as usize]),
        CompoundTerm::Dual(p) => turned_code(codes[p as usize]),
    }
}

#[tactic(auto, unfolding(laws::specs::Codes::joined_code))]
fn joined_code(op: Pair, a: u8, b: u8) -> u8
    ensures { result ≡ joined_code op a b }
{
    match op {
        Pair::Pareto | Pair::Both => a | b,
        Pair::Prior => prior_code(a, b),
    }
}

#[tactic(auto, unfolding(laws::specs::Codes::outcome_of))]
fn outcome_of(code: u8) -> Outcome
    ensures { result ≡ outcome_of code }
{
    match code {
        0 => Outcome::Same,
        1 => Outcome::First,
        2 => Outcome::Second,
        _ => Outcome::Unranked,
    }
}
