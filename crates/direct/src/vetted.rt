// The direct engine: rows are compared pair by pair, by ranks that are found once per query; a row that is gone is not
// compared again, and a dropped row's witness comes from the list of kept rows.
use crate::entries::in_room;
use pairs::vetted::pairs::Pairs;
use plan::vetted::beneath::beneath;
use plan::vetted::exits::exits;
use plan::vetted::ops::ops;
use ranks::vetted::table::fill_ranks;
use selection::vetted::asked::Asked;
use selection::vetted::engine::Engine;
use terms::vetted::prepared::numbers;
use terms::vetted::run::Numbered;

// Numbers, what records do, marks and ranks once per query; then rows are compared pair by pair.
pub struct Direct;

impl Engine for Direct {
    // Few rows need little room, and clearing more would cost as much as they do.
    fn select(
        asked: &Asked,
        ends: &[u8; 128],
        reach: &[[bool; 32]],
        ranks: &mut [i32],
        answers: &mut [u16],
    ) -> u16 {
        let term = asked.term;
        let rows = asked.rows;
        let stride = asked.stride();
        let numbers = numbers(asked.table);
        let of = Numbered {
            table: asked.table,
            numbers: &numbers,
        };
        let exits = exits(&of, term);
        let marks = beneath(&of, &exits, term);
        let ops = ops(&of, term);
        fill_ranks(&of, ends, &marks, term, &rows, stride, ranks);
        let pairs = Pairs {
            table: asked.table,
            ops: &ops,
            ends,
            reach,
            marks: &marks,
            exits: &exits,
            term,
            group: asked.group,
            rows,
            stride,
            ranks,
        };
        if rows.n <= 64 {
            return in_room::<64>(&pairs, answers);
        }
        in_room::<1024>(&pairs, answers)
    }
}
