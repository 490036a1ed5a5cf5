// What `pick` prints where nothing is refused: the answers of Query.
ghost use Rattle.std.specs.Prelude.{◌≡◌, ◌+◌, ◌≤◌, false, length, Ok};
ghost use Rattle.model.specs.Check.{check_reply};
ghost use Rattle.model.specs.Pick.{fails_file, pick_text};
ghost use Rattle.pick_text.specs.Printed.{Wrote};

use crate::fields::Text;
use crate::row_file::put_numbers;
use model::{MOST_COLUMNS, MOST_ROWS, Summary};
use query::query_by_parts;

// The text for an accepted table and whole rows: the top over the rows, ungrouped, by the engine by parts.
pub fn put_answered(prefs: &[u8], rows: &[u8], s: Summary, text: &mut Text)
    requires accepted { check_reply prefs.now 8 ≡ Ok s }
    requires whole { fails_file rows.now ≡ false }
    requires room { text.old.at + 15378 ≤ length text.old.out.now }
    ensures { Wrote text.old (pick_text prefs.now rows.now) 15378 text.new }
{
    let mut numbers = [0i32; 8192];
    let run = &mut numbers[..rows.len() / 4];
    put_numbers(rows, run);
    let mut answers = [0u16; MOST_ROWS];
    let top = s.top as usize;
    let reply = query_by_parts(prefs, MOST_COLUMNS, run, top, 0, &mut answers);
    match reply {
        Err(why) => text.put_refused(why),
        Ok(kept) => text.put_answer(s, kept, &answers[..rows.len() / 32]),
    }
}
