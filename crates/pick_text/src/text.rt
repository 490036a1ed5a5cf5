// The text: the table's refusals, then that of `rows.bin`, then the answers.
ghost use Rattle.std.specs.Prelude.{◌≡◌, ◌+◌, ◌≤◌, length, Ok};
ghost use Rattle.model.specs.Check.{check_reply};
ghost use Rattle.model.specs.Pick.{pick_text};
ghost use Rattle.pick_text.specs.Printed.{Wrote};

use crate::answer_text::put_answered;
use crate::fields::Text;
use crate::row_file::fails_file;
use model::{MOST_COLUMNS, Refusal, Summary};
use table::check;

// Puts the text where the buffer has room.
pub fn put_text(prefs: &[u8], rows: &[u8], text: &mut Text)
    requires { text.old.at + 15378 ≤ length text.old.out.now }
    ensures { Wrote text.old (pick_text prefs.now rows.now) 15378 text.new }
{
    match check(prefs, MOST_COLUMNS) {
        Err(why) => text.put_refused(why),
        Ok(s) => put_accepted(prefs, rows, s, text),
    }
}

// The text for an accepted table, which is checked before `rows.bin`.
fn put_accepted(prefs: &[u8], rows: &[u8], s: Summary, text: &mut Text)
    requires accepted { check_reply prefs.now 8 ≡ Ok s }
    requires room { text.old.at + 15378 ≤ length text.old.out.now }
    ensures { Wrote text.old (pick_text prefs.now rows.now) 15378 text.new }
{
    if fails_file(rows) {
        text.put_refused(Refusal::Rows);
    } else {
        put_answered(prefs, rows, s, text);
    }
}
