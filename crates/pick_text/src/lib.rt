// All that `pick` prints, as a function of the bytes of its two files (SPECIFICATION, "The program pick").
#![tactic(auto)]

mod answer_text;
mod fields;
mod lines;
mod row_file;
mod row_lines;
mod text;

ghost use Rattle.std.specs.Prelude.{◌≡◌, List, ◌++◌, ℕ, ◌-◌, ◌≤◌, length, take, replicate};
ghost use Rattle.model.specs.Pick.{pick_text};

use fields::Text;
use text::put_text;

// The most bytes that a text has: a line of at most 18, and 1,024 lines of at most 15.
pub const MOST_TEXT: usize = 15378;

// The text for `prefs.bin`, a table, and `rows.bin`, whatever bytes they have; a missing file is one of no bytes. Returns
// how many bytes the text has. It stands at the start of `out`, and zeros after it.
pub fn pick_text(prefs: &[u8], rows: &[u8], out: &mut [u8; MOST_TEXT]) -> usize
    ensures count { result ≡ length (pick_text prefs.now rows.now) }
    ensures within { result ≤ length out.new }
    ensures cleared { out.new ≡ pick_text prefs.now rows.now ++ replicate (15378 - result) 0 }
{
    let mut text = Text { out, at: 0 };
    put_text(prefs, rows, &mut text);
    let n = text.at;
    out[n..].fill(0);
    n
}

// Longer files need not be read to their ends: the text is that of their first 1,537 and 32,769 bytes. The function does
// nothing: its `ensures` is a theorem.
pub fn first_bytes_decide()
    ensures { (prefs rows : List ℕ) → pick_text (take 1537 prefs) (take 32769 rows) ≡ pick_text prefs rows }
{}
