// What Query refuses: 1 to 16 as every call that asks for a term, then 17 GROUP and 18 SHORT.
ghost use Rattle.std.specs.Prelude.{◌≡◌, ◌<◌};
ghost use Rattle.model.specs.Replies.{refusal};
ghost use Rattle.model.specs.Check.{refuse_if, ◌then◌};
ghost use Rattle.model.specs.Query.{fails_rows, fails_group, fails_short, query_verdict};

use super::term_verdict;
use model::{MOST_ROWS, Refusal, Verdict};

// 1 to 18 in order.
pub fn query_verdict(
    table: &[u8],
    columns: usize,
    rows: &[i32],
    term: usize,
    group: u8,
    answers: &[u16],
) -> Verdict
    ensures { result ≡ query_verdict table.now columns rows.now term group answers.now }
{
    term_verdict(table, columns, fails_rows(columns, rows), term)?;
    group_and_room(columns, rows, group, answers)
}

// 15 ROWS: run not a multiple of the count, or over 1,024 rows. A count of 0 is refused as 1 WIDTH before.
#[tactic(auto, unfolding(model::specs::Query::row_count, model::specs::Query::fails_rows))]
fn fails_rows(columns: usize, rows: &[i32]) -> bool
    ensures { 0 < columns → result ≡ fails_rows columns rows.now }
{
    if columns == 0 {
        return false;
    }
    (rows.len() % columns != 0) | (MOST_ROWS < rows.len() / columns)
}

// 17 GROUP, then 18 SHORT.
#[tactic(auto, unfolding(model::specs::Replies::refusal, model::specs::Replies::numbered, model::specs::Replies::refusals))]
fn group_and_room(columns: usize, rows: &[i32], group: u8, answers: &[u16]) -> Verdict
    requires { 0 < columns }
    ensures { result ≡ (refuse_if (fails_group columns group) (refusal 17 0)
        then refuse_if (fails_short columns rows.now answers.now) (refusal 18 0)) }
{
    if fails_group(columns, group) {
        return Err(Refusal::Group);
    }
    if fails_short(columns, rows, answers) {
        return Err(Refusal::Short);
    }
    Ok(())
}

// 17 GROUP: group bit at or above the count.
fn fails_group(columns: usize, group: u8) -> bool
    ensures { result ≡ fails_group columns group }
{
    (0..8).any(|j| ((group >> j) % 2 == 1) & (columns <= j))
}

// 18 SHORT: answer buffer with fewer entries than there are rows.
#[tactic(auto, unfolding(model::specs::Query::row_count, model::specs::Query::fails_short))]
fn fails_short(columns: usize, rows: &[i32], answers: &[u16]) -> bool
    requires { 0 < columns }
    ensures { result ≡ fails_short columns rows.now answers.now }
{
    answers.len() < rows.len() / columns
}
