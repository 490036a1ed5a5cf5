// What each record up to the asked term does, in steps that the comparison of two rows reads at once (SPECIFICATION, "When a
// row is better"). Each function asks what was prepared before.
ghost use Rattle.std.specs.Prelude.{◌≡◌, ◌<◌};
ghost use Rattle.plan.specs.Ops.{Ops, base_op, pair_op, step_of};

use model::{BaseTerm, CompoundTerm, Pair, Record};
use terms::vetted::run::Numbered;

// What is done for a record: a base term goes by rank, or by the places of its edges (EXPLICIT); PARETO and BOTH join the codes
// of their parts.
#[derive(Clone, Copy, PartialEq, Eq)]
pub enum Op {
    ByRank,
    Places,
    Join,
    Prior,
    Dual,
}

// `left` is the column of a base term, the left or only part of a compound; `right` is the right part.
#[derive(Clone, Copy)]
pub struct Step {
    pub op: Op,
    pub left: u8,
    pub right: u8,
}

// The steps of the records up to the term.
pub fn ops(of: &Numbered, term: u8) -> [Step; 128]
    requires few { term < 128 }
    ensures { Ops of.now.table.now term result }
{
    let mut steps = [step_of(Record::Unknown); 128];
    for k in 0..term + 1 {
        steps[k as usize] = step_of(of.record(k));
    }
    steps
}

fn step_of(r: Record) -> Step
    ensures { result ≡ step_of r }
{
    match r {
        Record::Base(column, b) => Step {
            op: base_op(b),
            left: column,
            right: 0,
        },
        Record::Compound(CompoundTerm::Joined(op, p, q)) => Step {
            op: pair_op(op),
            left: p,
            right: q,
        },
        Record::Compound(CompoundTerm::Dual(p)) => Step {
            op: Op::Dual,
            left: p,
            right: 0,
        },
        Record::Value(_) | Record::Unknown => Step {
            op: Op::ByRank,
            left: 0,
            right: 0,
        },
    }
}

fn base_op(b: BaseTerm) -> Op
    ensures { result ≡ base_op b }
{
    match b {
        BaseTerm::Explicit => Op::Places,
        _ => Op::ByRank,
    }
}

fn pair_op(op: Pair) -> Op
    ensures { result ≡ pair_op op }
{
    match op {
        Pair::Pareto | Pair::Both => Op::Join,
        Pair::Prior => Op::Prior,
    }
}
