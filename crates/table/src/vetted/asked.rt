// What a call that asks for a term refuses: the table's own, then a row that is not of the count's length, then a number that
// is no term record. No public call: the calls use it, and it asks nothing.
pub mod query;

ghost use Rattle.std.specs.Prelude.{◌≡◌, ◌≤◌};
ghost use Rattle.model.specs.Record.{record_count};
ghost use Rattle.model.specs.Replies.{refusal};
ghost use Rattle.model.specs.Check.{refuse_if, ◌then◌};
ghost use Rattle.model.specs.Compare.{fails_term, term_verdict};

use crate::verdict::table_verdict;
use model::{RECORD_BYTES, Refusal, Verdict};
use records::parts::is_term_at;

// 1 to 16 in order, of any bytes, any column count and any number; whether a row is unfit is handed in.
pub fn term_verdict(table: &[u8], columns: usize, unfit: bool, term: usize) -> Verdict
    ensures { result ≡ term_verdict table.now columns unfit term }
{
    table_verdict(table, columns)?;
    rows_and_term(table, unfit, term)
}

// 15 ROWS, then 16 TERM.
#[tactic(auto, unfolding(model::specs::Replies::refusal, model::specs::Replies::numbered, model::specs::Replies::refusals))]
fn rows_and_term(table: &[u8], unfit: bool, term: usize) -> Verdict
    requires { record_count table.now ≤ 128 }
    ensures { result ≡ (refuse_if unfit (refusal 15 0) then refuse_if (fails_term table.now term) (refusal 16 0)) }
{
    if unfit {
        return Err(Refusal::Rows);
    }
    if fails_term(table, term) {
        return Err(Refusal::Term);
    }
    Ok(())
}

// 16 TERM: number given is not a term record.
#[tactic(auto, unfolding(model::specs::Record::record_count, model::specs::Compare::fails_term))]
fn fails_term(table: &[u8], term: usize) -> bool
    requires { record_count table.now ≤ 128 }
    ensures { result ≡ fails_term table.now term }
{
    if term < table.len() / RECORD_BYTES {
        return !is_term_at(table, term as u8);
    }
    true
}
