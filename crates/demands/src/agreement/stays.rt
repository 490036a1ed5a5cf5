// Which rows are left, as marks.
ghost use Rattle.std.specs.Prelude.{◌≡◌, false, not, ℕ, ◌<◌, ◌≤◌, eqb, length, get_or};
ghost use Rattle.laws.specs.Wrote.{Wrote};
ghost use Rattle.demands.specs.Leaving.{holds_own, marked, spared, kept_by_split};
ghost use Rattle.demands.specs.Gathered.{Marking, Run};

use query::{query_by_parts, query_direct};

// Marks those of n rows that hold their own number or are not asked to be taken out.
pub fn mark_spared(entries: &[u16], out: &[u8], n: usize, stay: &mut [bool; 1024])
    requires { Marking entries.now 0 n stay.old }
    ensures { Wrote false (spared (holds_own entries.now) out.now) 0 n stay.old
        stay.new × (length stay.new ≡ 1024) }
{
    for i in 0..n {
        stay[i] = holds_own(entries, i) | !asked_out(out, i);
    }
}

// Marks the rows that are kept by a query over the first `first` of n rows, and those kept by one over the others.
pub fn mark_apart(
    table: &[u8],
    columns: usize,
    rows: &[i32],
    n: usize,
    first: usize,
    term: usize,
    group: u8,
    stay: &mut [bool; 1024],
)
    requires { Run columns rows.now n × (first ≤ n) × (length stay.old ≡ 1024) }
    ensures { (i : ℕ) → i < n → marked stay.new i
        ≡ kept_by_split table.now columns rows.now first term group i }
{
    let cut = first * columns;
    let mut entries: [u16; 1024] = [0; 1024];
    let _direct = query_direct(table, columns, &rows[..cut], term, group, &mut entries);
    mark_kept(&entries, 0, first, stay);
    let _parts = query_by_parts(table, columns, &rows[cut..], term, group, &mut entries);
    mark_kept(&entries, first, n - first, stay);
}

// Marks the rows that hold their own number, `count` of them, from `from` on.
fn mark_kept(entries: &[u16], from: usize, count: usize, stay: &mut [bool; 1024])
    requires { Marking entries.now from count stay.old }
    ensures { Wrote false (holds_own entries.now) from count stay.old stay.new
        × (length stay.new ≡ 1024) }
{
    for i in 0..count {
        stay[from + i] = holds_own(entries, i);
    }
}

// Row i holds its own number.
fn holds_own(entries: &[u16], i: usize) -> bool
    requires { i < length entries.now }
    ensures { result ≡ holds_own entries.now i }
{
    entries[i] as usize == i
}

// The byte of row i asks to take it out; where there is none it does not.
fn asked_out(out: &[u8], i: usize) -> bool
    ensures { result ≡ not (eqb (get_or out.now i 0) 0) }
{
    matches!(out.get(i), Some(asked) if *asked != 0)
}
