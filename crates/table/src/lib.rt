// The table check of the specification: the bytes of a table become what the table is, or a refusal with its place.
#![tactic(auto)]

mod apart;
mod before;
mod chains;
mod filler;
mod judging;
pub mod refusals;
mod rules;
mod runs;
mod verdict;
pub mod vetted;

ghost use Rattle.std.specs.Prelude.{◌≡◌};
ghost use Rattle.model.specs.Check.{check_reply};

use crate::verdict::{summary_of, table_verdict};
use model::CheckReply;

// Check: number of records, top, columns read by the top and how many; or the first refusal of 1 to 14 with its place.
// It takes any bytes and any column count.
#[tactic(auto, unfolding(model::specs::Check::check_reply))]
pub fn check(table: &[u8], columns: usize) -> CheckReply
    ensures { result ≡ check_reply table.now columns }
{
    table_verdict(table, columns)?;
    Ok(summary_of(table))
}
