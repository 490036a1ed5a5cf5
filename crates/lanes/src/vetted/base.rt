// The codes of a base record, from ranks and values: row i has rank x and value v, the lanes' stand from `at` and `from` on.
ghost use Rattle.std.specs.Prelude.{◌≡◌, not, cond, ◌+◌, ◌≤◌, length};
ghost use Rattle.std.specs.Int.Signed.{lt_z};
ghost use Rattle.laws.specs.ValueCodes.{tests_code};
ghost use Rattle.laws.specs.Wrote.{Wrote};
ghost use Rattle.lanes.specs.Lanes.{order_code, place_code, order_lane, ranked_lane, place_lane};

use crate::each_lane::put;

// By rank, where equal ranks are equal values.
// As it is: any `count`, though all callers have 64: what may not change, since any is what is promised.
pub fn order_lanes(ranks: &[i32], at: usize, x: i32, codes: &mut [u8], a: usize, count: usize)
    requires ranks { at + count ≤ length ranks.now }
    requires codes { a + count ≤ length codes.old }
    ensures { Wrote 0 (order_lane x ranks.now at) a count codes.old codes.new }
{
    put(&mut codes[a..a + count], |j, _| order(x, ranks[at + j]));
}

// By rank, where different values may have equal ranks.
pub fn ranked_lanes(
    ranks: &[i32],
    at: usize,
    x: i32,
    values: &[i32],
    from: usize,
    v: i32,
    codes: &mut [u8],
    a: usize,
    count: usize,
)
    requires ranks { at + count ≤ length ranks.now }
    requires values { from + count ≤ length values.now }
    requires codes { a + count ≤ length codes.old }
    ensures { Wrote 0 (ranked_lane x ranks.now at v values.now from) a count codes.old codes.new }
{
    put(
        &mut codes[a..a + count],
        |j, _| ranked(x, ranks[at + j], v == values[from + j]),
    );
}

// By place among the ends of edges: `to` has the code of the row's place against each of the 33.
pub fn place_lanes(
    to: &[u8; 33],
    ranks: &[i32],
    at: usize,
    values: &[i32],
    from: usize,
    v: i32,
    codes: &mut [u8],
    a: usize,
)
    requires ranks { at + 64 ≤ length ranks.now }
    requires values { from + 64 ≤ length values.now }
    requires codes { a + 64 ≤ length codes.old }
    ensures { Wrote 0 (place_lane to.now ranks.now at v values.now from) a 64 codes.old codes.new }
{
    put(
        &mut codes[a..a + 64],
        |j, _| placed(to, ranks[at + j], v == values[from + j]),
    );
}

// No branch, so that many of them go at once.
fn order(x: i32, y: i32) -> u8
    ensures { result ≡ order_code x y }
{
    ((x < y) as u8) + 2 * ((y < x) as u8)
}

fn ranked(x: i32, y: i32, same: bool) -> u8
    ensures { result ≡ tests_code same (lt_z x y) (lt_z y x) }
{
    (!same as u8) * (((x <= y) as u8) + 2 * ((y <= x) as u8))
}

// As it is: with `match usize::try_from(y)` a query over EXPLICIT took 1.17 times as long, at 1,024 rows and at 128.
fn placed(to: &[u8; 33], y: i32, same: bool) -> u8
    ensures { result ≡ cond same 0 (place_code to.now y) }
{
    if same {
        return 0;
    }
    if y < 0 {
        return 3;
    }
    if y < 33 {
        let at = y as usize;
        return to[at];
    }
    3
}
