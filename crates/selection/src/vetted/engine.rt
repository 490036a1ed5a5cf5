// What an engine does with a query that refuses nothing.
ghost use Rattle.std.specs.Prelude.{◌+◌, ◌*◌, ◌≤◌, length};
ghost use Rattle.model.specs.Term.{term_at};
ghost use Rattle.model.specs.Query.{beats_in};
ghost use Rattle.terms.specs.Prepared.{RunEnds, Reached};
ghost use Rattle.rows.specs.Values.{Room};
ghost use Rattle.selection.specs.Selected.{Selected};

use crate::vetted::asked::Asked;

pub trait Engine {
    // Writes each row's entry, with room for the ranks of all rows. Returns how many rows are kept. `ends` and `reach` are
    // prepared of the table: where the values of its terms end, and what its edges reach.
    fn select(
        asked: &Asked,
        ends: &[u8; 128],
        reach: &[[bool; 32]],
        ranks: &mut [i32],
        answers: &mut [u16],
    ) -> u16
        requires ends { RunEnds asked.now.table.now ends.now }
        requires reach { Reached asked.now.table.now ends.now reach.now }
        requires ranks { Room asked.now.rows.n (asked.now.term * 64 + 64) (length ranks.old) }
        requires answers { asked.now.rows.n ≤ length answers.old }
        ensures { Selected (beats_in (term_at asked.now.table.now asked.now.term) asked.now.rows.columns
            asked.now.rows.cells.now asked.now.group) asked.now.rows.n answers.old answers.new result };
}
