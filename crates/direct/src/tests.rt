// What another crate can ask of the pairs and the engine does not: the code of two values by their edges. The expected codes
// are by hand, from Example 8 of the report: edges 4 to 3, 4 to 2 and 3 to 1, each to its better value.
ghost use Rattle.std.specs.Prelude.{◌≡◌, ◌≤◌};

use model::{BaseTerm, Record, Refusal};
use pairs::vetted::pairs::Pairs;
use plan::vetted::beneath::beneath;
use plan::vetted::exits::exits;
use plan::vetted::ops::ops;
use ranks::vetted::table::fill_ranks;
use rows::vetted::column::Column;
use rows::vetted::run::Rows;
use selection::vetted::asked::Asked;
use table::vetted::asked::term_verdict;
use terms::vetted::prepared::{fill_closures, numbers, run_ends};
use terms::vetted::run::Numbered;

// LOWEST of column 0; EXPLICIT of column 0 with its edges; PRIOR of both.
const EXAMPLE_8: [u8; 72] = [
    1, 0, 0, 0, 0, 0, 0, 0, 0, 0, 0, 0, //
    9, 0, 0, 0, 0, 0, 0, 0, 0, 0, 0, 0, //
    0, 4, 0, 0, 4, 0, 0, 0, 3, 0, 0, 0, //
    0, 4, 0, 0, 4, 0, 0, 0, 2, 0, 0, 0, //
    0, 4, 0, 0, 3, 0, 0, 0, 1, 0, 0, 0, //
    17, 0, 1, 0, 0, 0, 0, 0, 0, 0, 0, 0, //
];

const EDGES: u8 = 1;

const PRIOR: u8 = 5;

// Codes: first better 1, second better 2, unranked 3.
#[test]
fn example_8_by_its_edges(rt: HostRuntime) {
    for (v, w, code) in [
        (1, 4, 1),
        (4, 1, 2),
        (4, 6, 1),
        (6, 2, 2),
        (2, 3, 3),
        (5, 6, 3),
    ] {
        let given = code_of(&EXAMPLE_8, &[1, 2, 3, 4, 5, 6], v - 1, w - 1);
        assert_eq!(rt; given, Ok(Some(code)), "{v} and {w}");
    }
}

// The code of the values of rows i and j by the edges of record 1, where record 5 is asked. None where record 1 is no EXPLICIT
// that tells of it, where a row is not there, and over more than 64 rows.
fn code_of<'a>(
    table: &'a [u8],
    cells: &'a [i32],
    i: usize,
    j: usize,
) -> Result<Option<u8>, Refusal> {
    term_verdict(table, 1, false, PRIOR as usize)?;
    if cells.len() > 64 {
        return Ok(None);
    }
    let rows = Rows {
        columns: 1,
        cells,
        n: cells.len(),
    };
    let asked = Asked {
        table,
        rows,
        term: PRIOR,
        group: 0,
    };
    let ends = run_ends(asked.table);
    let mut reach = [[false; 32]; 256];
    fill_closures(asked.table, &ends, &mut reach);
    let numbers = numbers(asked.table);
    let of = Numbered {
        table: asked.table,
        numbers: &numbers,
    };
    let exits = exits(&of, asked.term);
    let marks = beneath(&of, &exits, asked.term);
    let ops = ops(&of, asked.term);
    let stride = asked.stride();
    let mut ranks = [0i32; 8192];
    fill_ranks(
        &of,
        &ends,
        &marks,
        asked.term,
        &asked.rows,
        stride,
        &mut ranks,
    );
    let pairs = Pairs {
        table: asked.table,
        ops: &ops,
        ends: &ends,
        reach: &reach,
        marks: &marks,
        exits: &exits,
        term: asked.term,
        group: asked.group,
        rows: asked.rows,
        stride,
        ranks: &ranks,
    };
    Ok(values_code(&pairs, &of, i, j))
}

// The same by what is prepared of the table and the rows.
fn values_code(pairs: &Pairs, of: &Numbered, i: usize, j: usize) -> Option<u8>
    requires table { of.now.table.now ≡ pairs.now.table.now }
    requires few { pairs.now.rows.n ≤ 64 }
{
    let k = EDGES;
    if let Record::Base(c, BaseTerm::Explicit) = of.record(k)
        && k <= pairs.term
        && pairs.marks[k as usize]
        && i < pairs.rows.n
        && j < pairs.rows.n
    {
        let cells = Column {
            rows: pairs.rows,
            b: 0,
            c: c as usize,
        }
        .cells();
        let v = cells[i];
        let w = cells[j];
        let x = pairs.rank_at(i, k);
        let y = pairs.rank_at(j, k);
        return Some(pairs.explicit_code(k, v, w, x, y));
    }
    None
}
