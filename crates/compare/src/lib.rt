// Two rows compared under a term (SPECIFICATION, "Compare").
#![tactic(auto)]

mod compared;
mod outcomes;
pub mod vetted;

ghost use Rattle.std.specs.Prelude.{◌≡◌};
ghost use Rattle.model.specs.Compare.{compare_reply};

use crate::compared::compared;
use model::CompareReply;
use table::vetted::asked::term_verdict;

// Compare: same, first better, second better or unranked; or the first refusal of 1 to 16 with its place. It takes any bytes,
// any column count, any number for a term and any rows.
pub fn compare(
    table: &[u8],
    columns: usize,
    term: usize,
    first: &[i32],
    second: &[i32],
) -> CompareReply
    ensures { result ≡ compare_reply table.now columns term first.now second.now }
{
    let unfit = (first.len() != columns) | (second.len() != columns);
    term_verdict(table, columns, unfit, term)?;
    Ok(compared(table, term as u8, first, second))
}
