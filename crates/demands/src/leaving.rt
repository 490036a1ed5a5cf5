// What is said of rows left out (SPECIFICATION, "Leaving out rows"), of the calls themselves (`theorems` says it of the
// definitions). The function says whether the sentence holds of its arguments: whatever they are, what it returns and leaves
// in each buffer is an equation with definitions over Query's replies and buffers. That the sentence holds of whatever the
// specification claims it is the rest of its contract. Both are proved from the contracts of the calls alone.
ghost use Rattle.std.specs.Prelude.{◌≡◌, true, false, ◌<◌, ◌≤◌, length};
ghost use Rattle.model.specs.Record.{record_count, record_at, is_term};
ghost use Rattle.model.specs.Query.{row_count, fails_rows, fails_group, query_buffer};
ghost use Rattle.model.specs.Demand.{accepted};
ghost use Rattle.demands.specs.Leaving.{left_out, left_out_buffer};

use crate::agreement::left::queried_again;
use crate::agreement::stays::mark_spared;
use query::query_direct;

// Query over the rows, then by both engines over those that are left when the dropped rows with out[i] != 0 are taken
// out: whether the same rows are kept and each dropped row that is left names the same better row, by old numbers. It
// is so, where Query refuses nothing and the buffers have an entry for each row; a refusal is answered by false.
pub fn left_out(
    table: &[u8],
    columns: usize,
    rows: &[i32],
    term: usize,
    group: u8,
    out: &[u8],
    answers: &mut [u16],
    again: &mut [u16],
) -> bool
    ensures { (result ≡ left_out table.now columns rows.now term group out.now
        answers.old again.old)
        × (answers.new ≡ query_buffer table.now columns rows.now term group
        answers.old)
        × (again.new ≡ left_out_buffer table.now columns rows.now term group
        out.now answers.old again.old)
        × (accepted table.now columns ≡ true → term < record_count table.now
        → is_term (record_at table.now term) ≡ true
        → fails_rows columns rows.now ≡ false → fails_group columns group ≡ false
        → row_count columns rows.now ≤ length answers.old
        → row_count columns rows.now ≤ length again.old → result ≡ true) }
{
    let whole = query_direct(table, columns, rows, term, group, answers);
    match whole {
        Err(_) => false,
        Ok(total) => {
            let mut stay = [false; 1024];
            mark_spared(answers, out, rows.len() / columns, &mut stay);
            queried_again(
                table, columns, rows, term, group, &stay, total, answers, again,
            )
        }
    }
}
