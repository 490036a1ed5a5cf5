// The masks of a compound's parts, from its own (`exit_masks`). Each function asks what the check has shown before.
ghost use Rattle.std.specs.Prelude.{◌≡◌, ◌<◌, length};
ghost use Rattle.plan.specs.Exits.{PartsWithin, pushed, left_pushed, dual_pushed, record_pushed};

use crate::vetted::exit_masks::Exit;
use model::{CompoundTerm, Pair, Record};

// The masks of record k's parts.
pub fn push(r: Record, k: u8, exits: &mut [Exit])
    requires few { k < 128 }
    requires within { PartsWithin r }
    requires room { length exits.old ≡ 128 }
    ensures { exits.new ≡ record_pushed r k exits.old }
{
    let m = exits[k as usize];
    match r {
        Record::Compound(CompoundTerm::Joined(Pair::Prior, p, _)) => push_left(p, m, exits),
        Record::Compound(CompoundTerm::Joined(_, p, q)) => push_both(p, q, k, m, exits),
        Record::Compound(CompoundTerm::Dual(p)) => push_dual(p, k, m, exits),
        _ => {}
    }
}

// PARETO and BOTH: a code has the bits of its parts' codes.
fn push_both(p: u8, q: u8, k: u8, m: Exit, exits: &mut [Exit])
    requires few { k < 128 }
    requires left { p < 128 }
    requires right { q < 128 }
    requires room { length exits.old ≡ 128 }
    ensures { exits.new ≡ pushed p q k m exits.old }
{
    let i = p as usize;
    let j = q as usize;
    let at = k as usize;
    if exits[i].is_nothing() & exits[j].is_nothing() {
        exits[i] = m.part();
        exits[j] = m.part();
        exits[at] = m.own();
    }
}

// PRIOR: a code is the left part's unless that is same.
fn push_left(p: u8, m: Exit, exits: &mut [Exit])
    requires left { p < 128 }
    requires room { length exits.old ≡ 128 }
    ensures { exits.new ≡ left_pushed p m exits.old }
{
    let i = p as usize;
    if exits[i].is_nothing() {
        exits[i] = m;
    }
}

// DUAL: a code is its part's with first and second better exchanged.
fn push_dual(p: u8, k: u8, m: Exit, exits: &mut [Exit])
    requires few { k < 128 }
    requires part { p < 128 }
    requires room { length exits.old ≡ 128 }
    ensures { exits.new ≡ dual_pushed p k m exits.old }
{
    let i = p as usize;
    let at = k as usize;
    if exits[i].is_nothing() {
        exits[i] = m.turned();
        exits[at] = Exit::Nothing;
    }
}
