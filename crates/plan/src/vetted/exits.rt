// The masks of the records beneath the asked term (`exit_masks`). Each function asks what the check has shown before.
ghost use Rattle.std.specs.Prelude.{◌≡◌};
ghost use Rattle.plan.specs.Exits.{Exits, Exitable, start_mask};

use crate::exit_parts::push;
use crate::vetted::exit_masks::Exit;
use model::{CompoundTerm, Pair, Record};
use terms::vetted::run::Numbered;

// The masks for a comparison under the term, found downward from it: a part's from its compound's.
pub fn exits(of: &Numbered, term: u8) -> [Exit; 128]
    requires { Exitable of.now.table.now term }
    ensures { Exits of.now.table.now term result }
{
    let mut exits = [Exit::Nothing; 128];
    exits[term as usize] = start_mask(of.record(term));
    for k in (0..term + 1).rev() {
        push(of.record(k), k, &mut exits);
    }
    exits
}

// The asked term's own mask: PARETO's and BOTH's parts tell all of its code.
fn start_mask(r: Record) -> Exit
    ensures { result ≡ start_mask r }
{
    match r {
        Record::Compound(CompoundTerm::Joined(Pair::Pareto | Pair::Both, _, _)) => Exit::Bits,
        _ => Exit::All,
    }
}
