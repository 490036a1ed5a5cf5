// Which rows are kept: every row that is not gone has its round, in which it meets each later row that is not gone. A row that
// is gone has in `by` a row that beats it. Each function asks what was prepared before. `gone` has 0 for a row that is not
// gone; `codes` has room for a code of each record.
// As it is: `gone` stands beside `by`, in place of an Option for each row. That is no plainer: a meeting stores both without a
// branch, and `by` alone may hold a row for one that is not gone.
ghost use Rattle.std.specs.Prelude.{◌+◌, ◌<◌, length};
ghost use Rattle.rows.specs.Keys.{Keyed};
ghost use Rattle.laws.specs.Elimination.{Rounds, Settled, Beaten};
ghost use Rattle.pairs.specs.Better.{better};
ghost use Rattle.direct.specs.Buffers.{Buffers};

use crate::meetings::meet;
use pairs::vetted::pairs::Pairs;

// All rounds, with no row gone at first: a row is not gone exactly where it is kept. A row that is gone has no round.
pub fn eliminate(pairs: &Pairs, keys: &[u8], gone: &mut [u8], by: &mut [u16], codes: &mut [u8; 128])
    requires room { Buffers pairs.now.rows.n (length gone.old) (length by.old) (length keys.now) }
    requires keyed { Keyed pairs.now.group pairs.now.rows.columns pairs.now.rows.cells.now pairs.now.rows.n keys.now }
    requires rounds { Rounds (better pairs.now) pairs.now.rows.n 0 gone.old }
    requires beaten { Beaten (better pairs.now) pairs.now.rows.n gone.old by.old }
    ensures settled { Settled (better pairs.now) pairs.now.rows.n gone.new }
    ensures beaten { Beaten (better pairs.now) pairs.now.rows.n gone.new by.new }
{
    for i in 0..pairs.rows.n {
        if gone[i] == 0 {
            round(pairs, keys, i, gone, by, codes);
        }
    }
}

// The round of row i: it meets each later row that is not gone, until it is beaten.
fn round(
    pairs: &Pairs,
    keys: &[u8],
    i: usize,
    gone: &mut [u8],
    by: &mut [u16],
    codes: &mut [u8; 128],
)
    requires row { i < pairs.now.rows.n }
    requires room { Buffers pairs.now.rows.n (length gone.old) (length by.old) (length keys.now) }
    requires keyed { Keyed pairs.now.group pairs.now.rows.columns pairs.now.rows.cells.now pairs.now.rows.n keys.now }
    requires rounds { Rounds (better pairs.now) pairs.now.rows.n i gone.old }
    requires beaten { Beaten (better pairs.now) pairs.now.rows.n gone.old by.old }
    ensures rounds { Rounds (better pairs.now) pairs.now.rows.n (i + 1) gone.new }
    ensures beaten { Beaten (better pairs.now) pairs.now.rows.n gone.new by.new }
{
    for j in i + 1..pairs.rows.n {
        if meet(pairs, keys, i, j, gone, by, codes) {
            by[i] = j as u16;
            gone[i] = 1;
            return;
        }
    }
}
