// What the signed sentences say of both engines, of the calls themselves (`theorems` says it of the definitions). Each
// function says whether the sentence holds of its arguments: whatever they are, what it returns and leaves in each buffer is
// an equation with definitions over Query's replies and buffers. That the sentence holds of whatever the specification claims
// it is the rest of its contract. Both are proved from the contracts of the calls alone.
ghost use Rattle.std.specs.Prelude.{◌≡◌, true, false, ◌&&◌, ◌<◌, ◌≤◌, length};
ghost use Rattle.model.specs.Record.{record_count, record_at, is_term};
ghost use Rattle.model.specs.Query.{row_count, fails_rows, fails_group, query_reply, query_buffer};
ghost use Rattle.model.specs.Demand.{accepted};
ghost use Rattle.demands.specs.Agreement.{same_reply, same_entries};
ghost use Rattle.demands.specs.Witness.{beaten_by_kept};

use crate::agreement::witnesses::reply_witnessed;
use query::{query_by_parts, query_direct};

// The two engines, each with a buffer of its own: whether their replies and what they leave in the buffers are the same. They
// are, for whatever input, refused or not, where the buffers began alike.
pub fn engines_agree(
    table: &[u8],
    columns: usize,
    rows: &[i32],
    term: usize,
    group: u8,
    a: &mut [u16],
    b: &mut [u16],
) -> bool
    ensures { (result
        ≡ (same_reply (query_reply table.now columns rows.now term group a.old)
        (query_reply table.now columns rows.now term group b.old)
        && same_entries (query_buffer table.now columns rows.now term group a.old)
        (query_buffer table.now columns rows.now term group b.old)))
        × (a.new ≡ query_buffer table.now columns rows.now term group a.old)
        × (b.new ≡ query_buffer table.now columns rows.now term group b.old)
        × (a.old ≡ b.old → (result ≡ true) × (a.new ≡ b.new)) }
{
    let direct = query_direct(table, columns, rows, term, group, a);
    let parts = query_by_parts(table, columns, rows, term, group, b);
    (direct == parts) & (*a == *b)
}

// The direct engine, then the engine by parts over the buffer that it left: whether each dropped row's entry is a row that
// holds its own number, is in its group, and is first better in Compare's reply. It is, where Query refuses nothing; a refusal
// is answered by false.
pub fn beaten_by_kept(
    table: &[u8],
    columns: usize,
    rows: &[i32],
    term: usize,
    group: u8,
    answers: &mut [u16],
) -> bool
    ensures { (result ≡ beaten_by_kept table.now columns rows.now term group answers.old)
        × (answers.new ≡ query_buffer table.now columns rows.now term group
        (query_buffer table.now columns rows.now term group answers.old))
        × (accepted table.now columns ≡ true → term < record_count table.now
        → is_term (record_at table.now term) ≡ true
        → fails_rows columns rows.now ≡ false → fails_group columns group ≡ false
        → row_count columns rows.now ≤ length answers.old → result ≡ true) }
{
    let direct = query_direct(table, columns, rows, term, group, answers);
    let witnessed = reply_witnessed(direct, table, columns, rows, term, group, answers);
    let parts = query_by_parts(table, columns, rows, term, group, answers);
    witnessed & reply_witnessed(parts, table, columns, rows, term, group, answers)
}
