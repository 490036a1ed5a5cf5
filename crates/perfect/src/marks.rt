// The marks of a row under the terms of an accepted table, from record 0 upward: of each term whether no 32-bit value is
// better in every base term beneath, and whether none is worse, which is what DUAL asks of its part.
ghost use Rattle.std.specs.Prelude.{◌≡◌, false, get_or};
ghost use Rattle.model.specs.Term.{term_at};
ghost use Rattle.model.specs.Better.{cell};
ghost use Rattle.model.specs.Perfect.{perfect};
ghost use Rattle.laws.specs.Runs.{values_between};
ghost use Rattle.perfect.specs.Marks.{Asked, Marking, CellFits, parts_mark, record_mark};

use crate::extremes::base_mark;
use model::{CompoundTerm, Record};
use terms::vetted::prepared::{numbers, run_ends};
use terms::vetted::run::{Numbered, Run};

// Whether the row is perfect for the term.
pub fn is_perfect(table: &[u8], term: u8, row: &[i32]) -> bool
    requires { Asked table.now term }
    ensures { result ≡ perfect false (term_at table.now term) row.now }
{
    let numbers = numbers(table);
    let ends = run_ends(table);
    let of = Numbered {
        table,
        numbers: &numbers,
    };
    let mut best = [false; 256];
    let mut worst = [false; 256];
    for k in 0..=term {
        let at = k as usize;
        let r = of.record(k);
        let b = record_mark(&of, r, k, ends[at], false, row, &best, &worst);
        let w = record_mark(&of, r, k, ends[at], true, row, &worst, &best);
        best[at] = b;
        worst[at] = w;
    }
    best[term as usize]
}

// The mark of record k, from its parts' marks: their own, and the other ones for DUAL.
// As it is: eight parameters, since its two calls exchange `own` and `other`, which a struct of both would hide: no plainer.
fn record_mark(
    of: &Numbered,
    r: Record,
    k: u8,
    e: u8,
    odd: bool,
    row: &[i32],
    own: &[bool; 256],
    other: &[bool; 256],
) -> bool
    requires { Marking of.now.table.now k e r }
    ensures mark { result ≡ record_mark odd r (values_between of.now.table.now k e) row.now
        (λ i. get_or own.now i false) (λ i. get_or other.now i false) }
    ensures fits { CellFits r row.now }
{
    match r {
        Record::Base(column, b) => {
            let run = Run { of: *of, k, e };
            base_mark(b, &run, odd, cell_of(row, column))
        }
        Record::Compound(c) => parts_mark(c, own, other),
        Record::Value(_) | Record::Unknown => false,
    }
}

// Both parts' marks, or the other mark of DUAL's part.
fn parts_mark(c: CompoundTerm, own: &[bool; 256], other: &[bool; 256]) -> bool
    ensures { result ≡ parts_mark c (λ i. get_or own.now i false) (λ i. get_or other.now i false) }
{
    match c {
        CompoundTerm::Joined(_, p, q) => own[p as usize] & own[q as usize],
        CompoundTerm::Dual(p) => other[p as usize],
    }
}

// The row's value in a column; 0 past its end.
#[tactic(auto, unfolding(model::specs::Better::cell))]
fn cell_of(row: &[i32], column: u8) -> i32
    ensures { result ≡ cell row.now column }
{
    row.get(column as usize).copied().unwrap_or(0)
}
