// One row's entry: a kept row's own number, and for a dropped row the first of the kept rows that is better. Each function
// asks what was found before. `gone` has 0 for a row that is not gone, and `by` a row that beats one that is gone; `kept`
// lists the kept rows in order.
ghost use Rattle.std.specs.Prelude.{◌≡◌, ◌<◌, ◌≤◌, true, length};
ghost use Rattle.model.specs.Query.{kept, kept_count, answer};
ghost use Rattle.laws.specs.Elimination.{Beaten};
ghost use Rattle.pairs.specs.Better.{better};
ghost use Rattle.direct.specs.Kept.{Listed, KeptRows, lowest_kept};

use pairs::vetted::pairs::Pairs;

// Row i's entry. A kept row that dropped it in its own round is the lowest: a lower one would have dropped it before.
pub fn entry(
    pairs: &Pairs,
    gone: &[u8],
    by: &[u16],
    kept: &[u16],
    i: usize,
    codes: &mut [u8; 128],
) -> u16
    requires row { i < pairs.now.rows.n }
    requires gone { pairs.now.rows.n ≤ length gone.now }
    requires by { pairs.now.rows.n ≤ length by.now }
    requires kept { KeptRows (better pairs.now) pairs.now.rows.n gone.now kept.now }
    requires beaten { Beaten (better pairs.now) pairs.now.rows.n gone.now by.now }
    ensures { result ≡ answer pairs.now.rows.n (better pairs.now) i }
{
    if gone[i] == 0 {
        return i as u16;
    }
    let b = by[i];
    let at = b as usize;
    if at < i && gone[at] == 0 {
        return b;
    }
    first_better(pairs, kept, i, b, codes)
}

// The first of the kept rows that is better than row i, or n. Row `by` is better, so that it need not be compared.
// As it is: n for none is the answer that the model's search gives, and an Option, which is never None here, is no plainer.
fn first_better(pairs: &Pairs, list: &[u16], i: usize, by: u16, codes: &mut [u8; 128]) -> u16
    requires row { i < pairs.now.rows.n }
    requires count { length list.now ≡ kept_count pairs.now.rows.n (better pairs.now) }
    requires listed { Listed (kept pairs.now.rows.n (better pairs.now)) pairs.now.rows.n list.now }
    requires by { better pairs.now by i ≡ true }
    ensures { result ≡ lowest_kept pairs.now.rows.n (better pairs.now) i }
{
    for &j in list {
        if j == by || pairs.beats(j as usize, i, codes) {
            return j;
        }
    }
    pairs.rows.n as u16
}
