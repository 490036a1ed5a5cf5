// Two rows of a run meet, and at most one of them is gone after it. The function asks what was prepared before. `gone` has 0
// for a row that is not gone; a row that is gone has in `by` a row that beats it. `codes` has room for a code of each record.
ghost use Rattle.std.specs.Prelude.{◌≡◌, true, ◌+◌, ◌<◌, length};
ghost use Rattle.rows.specs.Keys.{Keyed};
ghost use Rattle.laws.specs.Elimination.{Turn, Met, Beaten};
ghost use Rattle.pairs.specs.Better.{better};
ghost use Rattle.direct.specs.Buffers.{Buffers};

use pairs::vetted::pairs::Pairs;

// Row i meets row j. Says whether row j is better; where row i is, row j is gone. It is stored without a branch, since which
// of the two it is cannot be foreseen. Rows of different keys are in different groups.
pub fn meet(
    pairs: &Pairs,
    keys: &[u8],
    i: usize,
    j: usize,
    gone: &mut [u8],
    by: &mut [u16],
    codes: &mut [u8; 128],
) -> bool
    requires first { i < pairs.now.rows.n }
    requires second { j < pairs.now.rows.n }
    requires room { Buffers pairs.now.rows.n (length gone.old) (length by.old) (length keys.now) }
    requires keyed { Keyed pairs.now.group pairs.now.rows.columns pairs.now.rows.cells.now pairs.now.rows.n keys.now }
    requires turn { Turn (better pairs.now) pairs.now.rows.n i j gone.old }
    requires beaten { Beaten (better pairs.now) pairs.now.rows.n gone.old by.old }
    ensures met { Met (better pairs.now) pairs.now.rows.n i (j + 1) gone.new result }
    ensures beaten { Beaten (better pairs.now) pairs.now.rows.n gone.new by.new }
    ensures lost { result ≡ true → better pairs.now j i ≡ true }
{
    if gone[j] != 0 {
        return false;
    }
    if keys[i] != keys[j] {
        return false;
    }
    let c = pairs.group_code(i, j, codes);
    by[j] = i as u16;
    gone[j] = (c == 1) as u8;
    c == 2
}
