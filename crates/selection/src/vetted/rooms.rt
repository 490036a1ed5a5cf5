// Room for the ranks of a query's rows: a block of 64 rows takes 64 for each record up to the term. Few rows and few records
// need little room: clearing it all costs more than they do.
ghost use Rattle.std.specs.Prelude.{◌+◌, ◌*◌, ◌≤◌, length};
ghost use Rattle.model.specs.Term.{term_at};
ghost use Rattle.model.specs.Query.{beats_in, row_count};
ghost use Rattle.laws.specs.Taken.{Taken};
ghost use Rattle.terms.specs.Prepared.{RunEnds};
ghost use Rattle.rows.specs.Values.{Room};
ghost use Rattle.selection.specs.Selected.{Selected};

use crate::vetted::asked::Asked;
use crate::vetted::engine::Engine;
use rows::vetted::run::Rows;
use terms::vetted::prepared::{fill_closures, has_explicit, run_ends};

// Writes the entries by an engine. Returns how many rows are kept.
pub fn selected<'a, E: Engine>(
    table: &'a [u8],
    columns: usize,
    rows: &'a [i32],
    term: u8,
    group: u8,
    answers: &mut [u16],
) -> u16
    requires { Taken table.now columns rows.now term group answers.old }
    ensures { Selected (beats_in (term_at table.now term) columns rows.now group)
        (row_count columns rows.now) answers.old answers.new result }
{
    let n = rows.len() / columns;
    let rows = Rows {
        columns,
        cells: rows,
        n,
    };
    let asked = Asked {
        table,
        rows,
        term,
        group,
    };
    in_room::<E>(&asked, answers)
}

// By the smallest room that is enough.
fn in_room<E: Engine>(asked: &Asked, answers: &mut [u16]) -> u16
    requires { asked.now.rows.n ≤ length answers.old }
    ensures { Selected (beats_in (term_at asked.now.table.now asked.now.term) asked.now.rows.columns
        asked.now.rows.cells.now asked.now.group) asked.now.rows.n answers.old answers.new result }
{
    let size = asked.rows.n.div_ceil(64) * asked.stride();
    if size <= 1024 {
        return in_ranks::<E, 1024>(asked, answers);
    }
    if size <= 5120 {
        return in_ranks::<E, 5120>(asked, answers);
    }
    if size <= 8192 {
        return in_ranks::<E, 8192>(asked, answers);
    }
    if size <= 16384 {
        return in_ranks::<E, 16384>(asked, answers);
    }
    if size <= 32768 {
        return in_ranks::<E, 32768>(asked, answers);
    }
    in_ranks::<E, 131072>(asked, answers)
}

// With room for N ranks. Never inlined: a large frame takes time to enter.
#[inline(never)]
fn in_ranks<E: Engine, const N: usize>(asked: &Asked, answers: &mut [u16]) -> u16
    requires ranks { Room asked.now.rows.n (asked.now.term * 64 + 64) N }
    requires size { N ≤ 131072 }
    requires answers { asked.now.rows.n ≤ length answers.old }
    ensures { Selected (beats_in (term_at asked.now.table.now asked.now.term) asked.now.rows.columns
        asked.now.rows.cells.now asked.now.group) asked.now.rows.n answers.old answers.new result }
{
    let mut ranks = [0i32; N];
    let ends = run_ends(asked.table);
    if has_explicit(asked.table) {
        return with_edges::<E>(asked, &ends, &mut ranks, answers);
    }
    E::select(asked, &ends, &[[false; 32]; 1], &mut ranks, answers)
}

// What edges reach takes 8 KiB: apart, so that a table without edges need not clear them.
#[inline(never)]
fn with_edges<E: Engine>(
    asked: &Asked,
    ends: &[u8; 128],
    ranks: &mut [i32],
    answers: &mut [u16],
) -> u16
    requires ends { RunEnds asked.now.table.now ends.now }
    requires ranks { Room asked.now.rows.n (asked.now.term * 64 + 64) (length ranks.old) }
    requires answers { asked.now.rows.n ≤ length answers.old }
    ensures { Selected (beats_in (term_at asked.now.table.now asked.now.term) asked.now.rows.columns
        asked.now.rows.cells.now asked.now.group) asked.now.rows.n answers.old answers.new result }
{
    let mut reach = [[false; 32]; 256];
    fill_closures(asked.table, ends, &mut reach);
    E::select(asked, ends, &reach, ranks, answers)
}
