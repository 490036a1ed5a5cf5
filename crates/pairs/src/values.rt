// The code of two values that are not the same under a base term, by their ranks: the lower rank is better, and different
// values of one rank are unranked. EXPLICIT's ranks are places among the ends of its edges.
ghost use Rattle.std.specs.Prelude.{◌≡◌, ◌+◌, ◌*◌, ◌/◌, ◌%◌, ◌<◌, ◌≤◌, false, get_or, pos};
ghost use Rattle.std.specs.Int.Signed.{lt_z};
ghost use Rattle.model.specs.declared.BaseTerm.TheVariants.{Explicit};
ghost use Rattle.laws.specs.Runs.{values_between};
ghost use Rattle.laws.specs.ValueCodes.{apart_code, tests_code};
ghost use Rattle.pairs.specs.Ranks.{TwoRanked};

use crate::vetted::pairs::Pairs;
use compare::vetted::base_terms::apart_code;
use terms::vetted::places::leads;

// By rank, with no branch, since which is lower cannot be foreseen.
pub fn by_rank(x: i32, y: i32) -> u8
    ensures { result ≡ tests_code false (lt_z x y) (lt_z y x) }
{
    ((x <= y) as u8) + 2 * ((y <= x) as u8)
}

// By the places of v and w, which are their ranks x and y under EXPLICIT term k, whose values are the records from k + 1 to
// before e.
pub fn explicit_code(
    table: &[u8],
    reach: &[[bool; 32]],
    k: u8,
    e: u8,
    v: i32,
    w: i32,
    x: i32,
    y: i32,
) -> u8
    requires { TwoRanked table.now reach.now k e Explicit v w x y }
    ensures { result ≡ apart_code Explicit (values_between table.now k e) v w }
{
    let start = 2 * (k as usize) + 2;
    let p = start + x as usize;
    let q = start + y as usize;
    apart_code(leads(reach, k, e, q, p), leads(reach, k, e, p, q))
}

impl Pairs<'_> {
    // The code of v and w, whose ranks are x and y, under EXPLICIT term k of the pairs' own table. The engine calls the function
    // above; this one is for another crate that holds the pairs.
    pub fn explicit_code(&self, k: u8, v: i32, w: i32, x: i32, y: i32) -> u8
        requires few { k < 128 }
        requires ranked { TwoRanked self.now.table.now self.now.reach.now k (get_or self.now.ends.now k 0) Explicit v w x y }
        ensures { result ≡ apart_code Explicit (values_between self.now.table.now k (get_or self.now.ends.now k 0)) v w }
    {
        let e = self.ends[k as usize];
        explicit_code(self.table, self.reach, k, e, v, w, x, y)
    }

    // The rank of row i under record k.
    pub fn rank_at(&self, i: usize, k: u8) -> i32
        requires row { i < self.now.rows.n }
        requires below { k ≤ self.now.term }
        ensures { result ≡ get_or self.now.ranks.now (i / 64 * self.now.stride + k * 64 + i % 64) (pos 0) }
    {
        self.ranks[i / 64 * self.stride + (k as usize) * 64 + i % 64]
    }
}
