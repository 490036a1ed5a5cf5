// The answers: an entry for each row. The function asks what was found before. `gone` has 0 for a row that is not gone, and
// `by` a row that beats one that is gone; `kept` lists the kept rows in order.
ghost use Rattle.std.specs.Prelude.{◌≡◌, ◌≤◌, length};
ghost use Rattle.model.specs.Search.{fill};
ghost use Rattle.model.specs.Query.{answer};
ghost use Rattle.laws.specs.Elimination.{Beaten};
ghost use Rattle.pairs.specs.Better.{better};
ghost use Rattle.direct.specs.Kept.{KeptRows};

use crate::entry::entry;
use pairs::vetted::pairs::Pairs;

// Writes an entry for each row of the run.
pub fn write_answers(
    pairs: &Pairs,
    gone: &[u8],
    by: &[u16],
    kept: &[u16],
    codes: &mut [u8; 128],
    answers: &mut [u16],
)
    requires gone { pairs.now.rows.n ≤ length gone.now }
    requires by { pairs.now.rows.n ≤ length by.now }
    requires kept { KeptRows (better pairs.now) pairs.now.rows.n gone.now kept.now }
    requires beaten { Beaten (better pairs.now) pairs.now.rows.n gone.now by.now }
    requires answers { pairs.now.rows.n ≤ length answers.old }
    ensures { answers.new ≡ fill pairs.now.rows.n (answer pairs.now.rows.n (better pairs.now)) answers.old }
{
    for row in 0..pairs.rows.n {
        answers[row] = entry(pairs, gone, by, kept, row, codes);
    }
}
