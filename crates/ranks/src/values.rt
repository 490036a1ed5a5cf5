// The ranks of some cells under a base term of named values: each value record goes over all cells at once. Rank j is that of
// cell j. Each function asks what the calls of Query have shown before.
ghost use Rattle.std.specs.Prelude.{cond, ◌≤◌, ◌<◌, length};
ghost use Rattle.model.specs.Better.{in_role};
ghost use Rattle.laws.specs.Runs.{values_between};
ghost use Rattle.ranks.specs.Put.{Put, is_number, one_role, two_roles, edge_place};

use records::record::p_at;
use terms::vetted::run::Run;

// `class` for the cells in that role, `others` for the others.
pub fn one_role(run: &Run, others: i32, role: u8, class: i32, cells: &[i32], ranks: &mut [i32])
    requires long { length ranks.old ≤ length cells.now }
    ensures { Put (λ x r. one_role (values_between run.now.of.table.now run.now.k run.now.e) others role class x)
        cells.now ranks.old ranks.new }
{
    ranks.fill(others);
    put_role(run, role, class, cells, ranks);
}

// The same, and 0 for the favourites.
pub fn two_roles(run: &Run, others: i32, role: u8, class: i32, cells: &[i32], ranks: &mut [i32])
    requires long { length ranks.old ≤ length cells.now }
    ensures { Put (λ x r. two_roles (values_between run.now.of.table.now run.now.k run.now.e) others role class x)
        cells.now ranks.old ranks.new }
{
    one_role(run, others, role, class, cells, ranks);
    put_role(run, 1, 0, cells, ranks);
}

// EXPLICIT: a place among the ends of the edges, counted from the first, and past the last for a cell in no edge.
pub fn places(run: &Run, cells: &[i32], ranks: &mut [i32])
    requires long { length ranks.old ≤ length cells.now }
    ensures { Put (λ x r. edge_place run.now.of.table.now run.now.k run.now.e x) cells.now ranks.old ranks.new }
{
    let first = 2 * (run.k as usize) + 2;
    let n = 2 * (run.e as usize) - first;
    ranks.fill(n as i32);
    for p in 0..n {
        put_equal(cells, run.of.numbers[first + p], p as i32, ranks);
    }
}

// `class` for the cells in that role; the ranks of the others stay.
fn put_role(run: &Run, role: u8, class: i32, cells: &[i32], ranks: &mut [i32])
    requires long { length ranks.old ≤ length cells.now }
    ensures { Put (λ x r. cond (in_role role (values_between run.now.of.table.now run.now.k run.now.e) x) class r)
        cells.now ranks.old ranks.new }
{
    for i in run.k + 1..run.e {
        if p_at(run.of.table, i) == role {
            put_equal(cells, run.of.numbers[2 * i as usize], class, ranks);
        }
    }
}

// y for the cells that are u; the ranks of the others stay.
fn put_equal(cells: &[i32], u: i32, y: i32, ranks: &mut [i32])
    requires long { length ranks.old ≤ length cells.now }
    ensures { Put (λ x r. cond (is_number u x) y r) cells.now ranks.old ranks.new }
{
    for (j, rank) in ranks.iter_mut().enumerate() {
        *rank = if cells[j] == u { y } else { *rank };
    }
}
