// The perfect-match mark of a row (SPECIFICATION, "Perfect").
#![tactic(auto)]

mod extremes;
mod marks;

ghost use Rattle.std.specs.Prelude.{◌≡◌};
ghost use Rattle.model.specs.Perfect.{perfect_reply};
ghost use Rattle.perfect.specs.Says.{Says};

use crate::marks::is_perfect;
use model::{Mark, PerfectReply};
use table::vetted::asked::term_verdict;

// Perfect: whether the row is perfect for the term; or the first refusal of 1 to 16 with its place. It takes any bytes, any
// column count, any number for a term and any row. The mark says what the specification says of all 32-bit values.
pub fn perfect(table: &[u8], columns: usize, term: usize, row: &[i32]) -> PerfectReply
    ensures { (result ≡ perfect_reply table.now columns term row.now)
        × Says table.now term row.now result }
{
    let unfit = row.len() != columns;
    term_verdict(table, columns, unfit, term)?;
    let perfect = is_perfect(table, term as u8, row);
    Ok(if perfect { Mark::Yes } else { Mark::No })
}
