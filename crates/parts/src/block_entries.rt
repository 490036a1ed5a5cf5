// Numbers, marks, cells and ranks once per query; rows that are beaten are gone, block by block; then the kept rows name the
// rows that they beat, and the entries are written.
ghost use Rattle.std.specs.Prelude.{◌+◌, ◌*◌, ◌≤◌, length};
ghost use Rattle.model.specs.Term.{term_at};
ghost use Rattle.model.specs.Query.{beats_in};
ghost use Rattle.terms.specs.Prepared.{RunEnds, Reached};
ghost use Rattle.laws.specs.Firsts.{Firsts};
ghost use Rattle.rows.specs.Keys.{Keyed};
ghost use Rattle.rows.specs.Values.{Room};
ghost use Rattle.selection.specs.Selected.{Selected};
ghost use Rattle.parts.specs.Beats.{beats_of};

use crate::kept::Kept;
use crate::rounds::eliminate;
use blocks::vetted::prepared::Blocks;
use plan::vetted::beneath::beneath;
use plan::vetted::exits::exits;
use ranks::vetted::table::fill_ranks;
use rows::vetted::cells::fill_values;
use rows::vetted::keys::fill_keys;
use selection::vetted::asked::Asked;
use terms::vetted::prepared::numbers;
use terms::vetted::run::Numbered;

// Prepares the numbers, the outcomes that decide the term, the marks beneath it, and the rows' cells, keys and ranks, with room
// for N cells. Never inlined: one frame that holds each size takes time to enter.
#[inline(never)]
pub fn in_cells<const N: usize>(
    asked: &Asked,
    ends: &[u8; 128],
    reach: &[[bool; 32]],
    ranks: &mut [i32],
    answers: &mut [u16],
) -> u16
    requires ends { RunEnds asked.now.table.now ends.now }
    requires reach { Reached asked.now.table.now ends.now reach.now }
    requires ranks { Room asked.now.rows.n (asked.now.term * 64 + 64) (length ranks.old) }
    requires cells { Room asked.now.rows.n 512 N }
    requires size { N ≤ 8192 }
    requires answers { asked.now.rows.n ≤ length answers.old }
    ensures { Selected (beats_in (term_at asked.now.table.now asked.now.term) asked.now.rows.columns
        asked.now.rows.cells.now asked.now.group) asked.now.rows.n answers.old answers.new result }
{
    let term = asked.term;
    let group = asked.group;
    let rows = asked.rows;
    let stride = asked.stride();
    let numbers = numbers(asked.table);
    let of = Numbered {
        table: asked.table,
        numbers: &numbers,
    };
    let exits = exits(&of, term);
    let marks = beneath(&of, &exits, term);
    let mut values = [0i32; N];
    fill_values(&rows, &mut values);
    let mut keys = [0u8; 1024];
    fill_keys(group, rows.columns, rows.cells, rows.n, &mut keys);
    fill_ranks(&of, ends, &marks, term, &rows, stride, ranks);
    let blocks = Blocks {
        of,
        ends,
        reach,
        marks: &marks,
        exits: &exits,
        term,
        group,
        rows,
        stride,
        ranks,
        values: &values,
        keys: &keys,
    };
    by_blocks(&blocks, answers)
}

// Which rows are gone. Lanes that are no rows count as gone.
fn by_blocks(blocks: &Blocks, answers: &mut [u16]) -> u16
    requires answers { blocks.now.rows.n ≤ length answers.old }
    requires keyed { Keyed blocks.now.group blocks.now.rows.columns blocks.now.rows.cells.now blocks.now.rows.n blocks.now.keys.now }
    ensures { Selected (beats_of blocks.now) blocks.now.rows.n answers.old answers.new result }
{
    let mut codes = [0u8; 8192];
    let mut gone = [1u8; 1024];
    gone[..blocks.rows.n].fill(0);
    let mut first = [1024u16; 1024];
    eliminate(blocks, &mut gone, &mut first, &mut codes);
    let kept = Kept {
        of: *blocks,
        gone: &gone,
    };
    kept.entries(&first, &mut codes, answers)
}

impl Kept<'_> {
    // Which row is named for each row that is gone. Lanes that are no rows count as named.
    fn entries(&self, first: &[u16; 1024], codes: &mut [u8], answers: &mut [u16]) -> u16
        requires firsts { Firsts (beats_of self.now.of) self.now.of.rows.n self.now.gone.now first.now }
        requires codes { 8192 ≤ length codes.old }
        requires answers { self.now.of.rows.n ≤ length answers.old }
        ensures { Selected (beats_of self.now.of) self.now.of.rows.n answers.old answers.new result }
    {
        let mut by = [0u16; 1024];
        self.first_names(first, &mut by);
        self.name(&mut by, codes);
        self.write_answers(&by, answers)
    }
}
