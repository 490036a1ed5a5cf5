// The rows that a term keeps (SPECIFICATION, "Query"), by two engines behind one contract.
#![tactic(auto)]

ghost use Rattle.std.specs.Prelude.{◌≡◌};
ghost use Rattle.model.specs.Query.{query_reply, query_buffer};

use direct::vetted::Direct;
use model::QueryReply;
use parts::vetted::Parts;
use selection::vetted::engine::Engine;
use selection::vetted::rooms;
use table::vetted::asked::query::query_verdict;

// Query, rows compared pair by pair. Entry i becomes i if row i is kept, else the lowest kept row of its group that is better;
// entries after the last row keep their contents. Gives how many rows were kept, or the first refusal of 1 to 18 with its
// place, and then nothing is written. It takes any bytes, any column count, any rows, any number for a term, any group byte
// and any buffer.
pub fn query_direct(
    table: &[u8],
    columns: usize,
    rows: &[i32],
    term: usize,
    group: u8,
    answers: &mut [u16],
) -> QueryReply
    ensures reply { result ≡ query_reply table.now columns rows.now term group answers.old }
    ensures buffer { answers.new ≡ query_buffer table.now columns rows.now term group answers.old }
{
    answered::<Direct>(table, columns, rows, term, group, answers)
}

// Query, from the answers of the smaller wishes: the same contract.
pub fn query_by_parts(
    table: &[u8],
    columns: usize,
    rows: &[i32],
    term: usize,
    group: u8,
    answers: &mut [u16],
) -> QueryReply
    ensures reply { result ≡ query_reply table.now columns rows.now term group answers.old }
    ensures buffer { answers.new ≡ query_buffer table.now columns rows.now term group answers.old }
{
    answered::<Parts>(table, columns, rows, term, group, answers)
}

// By either engine: both refuse the same, and write the same.
fn answered<'a, E: Engine>(
    table: &'a [u8],
    columns: usize,
    rows: &'a [i32],
    term: usize,
    group: u8,
    answers: &mut [u16],
) -> QueryReply
    ensures reply { result ≡ query_reply table.now columns rows.now term group answers.old }
    ensures buffer { answers.new ≡ query_buffer table.now columns rows.now term group answers.old }
{
    // A refused call writes nothing: all is vetted before.
    query_verdict(table, columns, rows, term, group, answers)?;
    Ok(rooms::selected::<E>(table, columns, rows, term as u8, group, answers))
}
