// The rows that are left, gathered and queried again: whether their answers are those that they had.
ghost use Rattle.std.specs.Prelude.{◌≡◌, false, ◌&&◌, [], ◌∷◌, ◌++◌, ℕ, ◌*◌, ◌+◌, ◌<◌, ◌≤◌, eqb, length, take, drop, Ok};
ghost use Rattle.model.specs.Query.{row_count, row_at};
ghost use Rattle.model.specs.Leaving.{left_rows};
ghost use Rattle.demands.specs.Witness.{Answers, by_reply};
ghost use Rattle.demands.specs.Leaving.{marked, same_entry, same_by_number, queried_twice, same_twice};
ghost use Rattle.demands.specs.Gathered.{Run, Buffers, Placed, Gathered, OldNumbers};

use model::QueryReply;
use query::{query_by_parts, query_direct};

// Both engines, one after the other, over the rows that are marked: whether as many are kept as before and the entries
// are the same by old numbers.
pub fn queried_again(
    table: &[u8],
    columns: usize,
    rows: &[i32],
    term: usize,
    group: u8,
    stay: &[bool; 1024],
    total: u16,
    answers: &[u16],
    again: &mut [u16],
) -> bool
    requires { Answers columns rows.now (row_count columns rows.now) answers.now }
    ensures { (result ≡ same_twice table.now columns rows.now term group
        (marked stay.now) total answers.now again.old)
        × (again.new ≡ queried_twice table.now columns
        (left_rows columns rows.now (marked stay.now)) term group again.old) }
{
    let mut left: [i32; 8192] = [0; 8192];
    let mut old: [u16; 1024] = [0; 1024];
    let n = rows.len() / columns;
    let m = gather(columns, rows, n, stay, &mut left, &mut old);
    let cells = m * columns;
    let direct = query_direct(table, columns, &left[..cells], term, group, again);
    let one = same_answers(direct, total, &old, m, answers, again);
    let parts = query_by_parts(table, columns, &left[..cells], term, group, again);
    one & same_answers(parts, total, &old, m, answers, again)
}

// The rows that are marked, one after the other, and their old numbers. Gives how many there are.
fn gather(
    columns: usize,
    rows: &[i32],
    n: usize,
    stay: &[bool; 1024],
    left: &mut [i32; 8192],
    old: &mut [u16; 1024],
) -> usize
    requires { Run columns rows.now n × Buffers left.old old.old }
    ensures { Gathered columns rows.now (marked stay.now) n result left.new
        old.new × Buffers left.new old.new }
{
    let mut m = 0;
    for k in 0..n {
        if stay[k] {
            put_row(columns, rows, k, left, old, m);
            m += 1;
        }
    }
    m
}

// Row k and its number, after the m rows and numbers that are there.
fn put_row(
    columns: usize,
    rows: &[i32],
    k: usize,
    left: &mut [i32; 8192],
    old: &mut [u16; 1024],
    m: usize,
)
    requires { Placed columns rows.now k m × Buffers left.old old.old }
    ensures { (take (m * columns + columns) left.new
        ≡ take (m * columns) left.old ++ row_at columns rows.now k)
        × (take (m + 1) old.new ≡ take m old.old ++ k ∷ [])
        × Buffers left.new old.new }
{
    let from = k * columns;
    let to = m * columns;
    left[to..to + columns].copy_from_slice(&rows[from..from + columns]);
    old[m] = k as u16;
}

// Query refused nothing, as many rows were kept, and the entries are the same by old numbers.
fn same_answers(
    reply: QueryReply,
    total: u16,
    old: &[u16; 1024],
    m: usize,
    answers: &[u16],
    again: &[u16],
) -> bool
    requires { (kept : ℕ) → reply ≡ Ok kept → OldNumbers old.now m answers.now again.now }
    ensures { result ≡ by_reply reply
        (λ kept. eqb kept total && same_by_number old.now m answers.now again.now)
        false }
{
    match reply {
        Err(_) => false,
        Ok(kept) => (kept == total) & same_by_number(old, m, answers, again),
    }
}

// Each entry of the m rows that are left is the number of one of them, whose old number is the entry that the row had.
fn same_by_number(old: &[u16; 1024], m: usize, answers: &[u16], again: &[u16]) -> bool
    requires { OldNumbers old.now m answers.now again.now }
    ensures { result ≡ same_by_number old.now m answers.now again.now }
{
    (0..m).all(|i| same_entry(old, m, answers, again, i))
}

// So is entry i.
fn same_entry(old: &[u16; 1024], m: usize, answers: &[u16], again: &[u16], i: usize) -> bool
    requires { OldNumbers old.now m answers.now again.now × (i < m) }
    ensures { result ≡ same_entry old.now m answers.now again.now i }
{
    let e = again[i] as usize;
    if e >= m {
        return false;
    }
    let before = old[i] as usize;
    old[e] == answers[before]
}
