// The code of two values under a base term with its values: same 0, first better 1, second better 2, unranked 3.
// As it is: a code is a number, no enum. That is no plainer: its two bits are a set, which `|` joins with another's.
ghost use Rattle.std.specs.Prelude.{◌≡◌, true, false};
ghost use Rattle.model.specs.declared.BaseTerm.TheVariants.{Explicit};
ghost use Rattle.laws.specs.Sound.{sound_base};
ghost use Rattle.laws.specs.Runs.{values_between};
ghost use Rattle.laws.specs.ValueCodes.{tests_code, apart_code, value_code};
ghost use Rattle.terms.specs.Prepared.{ReachedFrom};
ghost use Rattle.compare.specs.Order.{order_code};

use model::BaseTerm;
use std::cmp::Ordering;
use terms::distances::{distance, distance_between};
use terms::vetted::places::leads;
use terms::vetted::run::Run;

// x against y.
pub fn base_code(run: &Run, reach: &[[bool; 32]], b: BaseTerm, x: i32, y: i32) -> u8
    requires is_sound { sound_base b (values_between run.now.of.table.now run.now.k run.now.e) ≡ true }
    requires reached { b ≡ Explicit → ReachedFrom run.now.of.table.now run.now.k run.now.e reach.now }
    ensures { result ≡ value_code b (values_between run.now.of.table.now run.now.k run.now.e) x y }
{
    if x == y {
        return 0;
    }
    match b {
        BaseTerm::Lowest => by_rank(x, y),
        BaseTerm::Highest => by_rank(y, x),
        BaseTerm::Around(wish) => by_rank(distance(wish, x), distance(wish, y)),
        BaseTerm::Between(low, up) => {
            by_rank(distance_between(low, up, x), distance_between(low, up, y))
        }
        BaseTerm::Pos => by_rank(run.class_pos(x), run.class_pos(y)),
        BaseTerm::Neg => by_rank(run.class_neg(x), run.class_neg(y)),
        BaseTerm::PosNeg => by_rank(run.class_pos_neg(x), run.class_pos_neg(y)),
        BaseTerm::PosPos => by_rank(run.class_pos_pos(x), run.class_pos_pos(y)),
        BaseTerm::Explicit => explicit_code(run, reach, x, y),
        BaseTerm::Any => 3,
    }
}

// The code of two values that are not the same, by their ranks: the lower is better.
fn by_rank<R: Ord + Copy>(x: R, y: R) -> u8
    ensures { result ≡ order_code (R.cmp x y) }
{
    match x.cmp(&y) {
        Ordering::Less => 1,
        Ordering::Greater => 2,
        Ordering::Equal => 3,
    }
}

// The same by two tests.
#[tactic(auto, unfolding(laws::specs::ValueCodes::tests_code))]
pub fn apart_code(first: bool, second: bool) -> u8
    ensures { result ≡ tests_code false first second }
{
    if first {
        1
    } else if second {
        2
    } else {
        3
    }
}

// EXPLICIT: by the places of x and y among the ends of the edges.
fn explicit_code(run: &Run, reach: &[[bool; 32]], x: i32, y: i32) -> u8
    requires { ReachedFrom run.now.of.table.now run.now.k run.now.e reach.now }
    ensures { result ≡ apart_code Explicit (values_between run.now.of.table.now run.now.k run.now.e) x y }
{
    let p = run.end_place(x);
    let q = run.end_place(y);
    apart_code(
        leads(reach, run.k, run.e, q, p),
        leads(reach, run.k, run.e, p, q),
    )
}
