// Which values belong to which term: the nearest term record before a value, and the roles that it takes.
ghost use Rattle.std.specs.Prelude.{◌≡◌, ◌≤◌, eqb};
ghost use Rattle.model.specs.Search.{any_in};
ghost use Rattle.model.specs.Record.{nearest_term, roles_of};
ghost use Rattle.records.specs.Parts.{roles_in};

use crate::parts::is_term_at;
use crate::record::record_at;
use model::{BaseTerm, Record, Role};

// The nearest term record before record k; 0 where there is none.
// As it is: 0 and no Option, which is no plainer: the specification's own search gives 0 there.
pub fn nearest_term(table: &[u8], k: u8) -> u8
    ensures nearest { result ≡ nearest_term table.now k }
    ensures within { result ≤ k }
{
    for i in (0..k).rev() {
        if is_term_at(table, i) {
            return i;
        }
    }
    0
}

// Whether a record takes values in this role.
#[tactic(auto, unfolding(model::specs::Search::any_in))]
pub fn takes_role(r: Record, role: u8) -> bool
    ensures { result ≡ any_in (roles_of r) (eqb role) }
{
    match r {
        Record::Base(_, b) => base_takes_role(b, role),
        Record::Value(_) | Record::Compound(_) | Record::Unknown => false,
    }
}

#[tactic(auto, unfolding(model::specs::Search::any_in))]
fn base_takes_role(b: BaseTerm, role: u8) -> bool
    ensures { result ≡ any_in (roles_in b) (eqb role) }
{
    match b {
        BaseTerm::Pos => role == Role::Favourite as u8,
        BaseTerm::Neg => role == Role::Disliked as u8,
        BaseTerm::PosNeg => (role == Role::Favourite as u8) | (role == Role::Disliked as u8),
        BaseTerm::PosPos => (role == Role::Favourite as u8) | (role == Role::SecondChoice as u8),
        BaseTerm::Explicit => role == Role::Edge as u8,
        _ => false,
    }
}
