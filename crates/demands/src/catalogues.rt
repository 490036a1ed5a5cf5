// What is said of two catalogues (SPECIFICATION, "Leaving out rows"), of the calls themselves: as in `leaving`.
ghost use Rattle.std.specs.Prelude.{◌≡◌, true, false, ◌<◌, ◌≤◌, length};
ghost use Rattle.model.specs.Record.{record_count, record_at, is_term};
ghost use Rattle.model.specs.Query.{row_count, fails_rows, fails_group, query_buffer};
ghost use Rattle.model.specs.Demand.{accepted};
ghost use Rattle.demands.specs.Leaving.{merges, merges_buffer};

use crate::agreement::left::queried_again;
use crate::agreement::stays::mark_apart;
use query::query_direct;

// The rows before `split` and those from it on as two catalogues, queried separately, one by each engine; then their
// kept rows together, by both engines; and all rows at once: whether the same rows are kept and each row dropped of
// those kept separately names the same better row, by the numbers in both together. It is so, where Query refuses
// nothing and the buffers have an entry for each row; a refusal is answered by false.
pub fn merged(
    table: &[u8],
    columns: usize,
    rows: &[i32],
    split: usize,
    term: usize,
    group: u8,
    answers: &mut [u16],
    again: &mut [u16],
) -> bool
    ensures { (result ≡ merges table.now columns rows.now split term group
        answers.old again.old)
        × (answers.new ≡ query_buffer table.now columns rows.now term group
        answers.old)
        × (again.new ≡ merges_buffer table.now columns rows.now split term group
        answers.old again.old)
        × (accepted table.now columns ≡ true → term < record_count table.now
        → is_term (record_at table.now term) ≡ true
        → fails_rows columns rows.now ≡ false → fails_group columns group ≡ false
        → row_count columns rows.now ≤ length answers.old
        → row_count columns rows.now ≤ length again.old → result ≡ true) }
{
    let whole = query_direct(table, columns, rows, term, group, answers);
    match whole {
        Err(_) => false,
        Ok(total) => {
            let n = rows.len() / columns;
            let first = split.min(n);
            let mut stay = [false; 1024];
            mark_apart(table, columns, rows, n, first, term, group, &mut stay);
            queried_again(
                table, columns, rows, term, group, &stay, total, answers, again,
            )
        }
    }
}
