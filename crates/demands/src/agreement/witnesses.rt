// Whether the entry of each dropped row is its witness: a row that holds its own number, is in its group, and is first better
// in Compare's reply.
ghost use Rattle.std.specs.Prelude.{◌≡◌, ℕ, ◌<◌, Ok};
ghost use Rattle.model.specs.Query.{row_count};
ghost use Rattle.demands.specs.Witness.{Answers, is_witness, witnessed, all_witnessed, where_kept};

use crate::agreement::given::number_given;
use compare::compare;
use model::QueryReply;
use rows::vetted::groups::in_group;

// Query refused nothing, and every row is kept or has its witness.
pub fn reply_witnessed(
    reply: QueryReply,
    table: &[u8],
    columns: usize,
    rows: &[i32],
    term: usize,
    group: u8,
    answers: &[u16],
) -> bool
    requires { (total : ℕ) → reply ≡ Ok total
        → Answers columns rows.now (row_count columns rows.now) answers.now }
    ensures { result ≡ where_kept reply
        (all_witnessed table.now columns rows.now (row_count columns rows.now) term group
        answers.now) }
{
    match reply {
        Err(_) => false,
        Ok(_) => all_witnessed(
            table,
            columns,
            rows,
            rows.len() / columns,
            term,
            group,
            answers,
        ),
    }
}

// Every row is kept or has its witness.
fn all_witnessed(
    table: &[u8],
    columns: usize,
    rows: &[i32],
    n: usize,
    term: usize,
    group: u8,
    answers: &[u16],
) -> bool
    requires { Answers columns rows.now n answers.now }
    ensures { result ≡ all_witnessed table.now columns rows.now n term group
        answers.now }
{
    (0..n).all(|i| row_witnessed(table, columns, rows, n, term, group, answers, i))
}

// Row i is kept or has its witness.
fn row_witnessed(
    table: &[u8],
    columns: usize,
    rows: &[i32],
    n: usize,
    term: usize,
    group: u8,
    answers: &[u16],
    i: usize,
) -> bool
    requires { Answers columns rows.now n answers.now × (i < n) }
    ensures { result ≡ witnessed table.now columns rows.now n term group answers.now i }
{
    let e = widened(answers[i]);
    if e == i {
        return true;
    }
    if e < n {
        return is_witness(table, columns, rows, n, term, group, answers, i, e);
    }
    false
}

// Row e is row i's witness.
fn is_witness(
    table: &[u8],
    columns: usize,
    rows: &[i32],
    n: usize,
    term: usize,
    group: u8,
    answers: &[u16],
    i: usize,
    e: usize,
) -> bool
    requires { Answers columns rows.now n answers.now × (i < n) × (e < n) }
    ensures { result ≡ is_witness table.now columns rows.now term group answers.now i e }
{
    let s = i * columns;
    let t = e * columns;
    let x = &rows[s..s + columns];
    let y = &rows[t..t + columns];
    (widened(answers[e]) == e)
        & in_group(group, x, y)
        & (number_given(compare(table, columns, term, y, x)) == 1)
}

fn widened(entry: u16) -> usize
    ensures { result ≡ entry }
{
    entry as usize
}
