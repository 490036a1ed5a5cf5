// Whether no 32-bit value is better than x under a base term with its values, and whether none is worse. `none_better` and
// `none_worse` of `laws` say that this is so.
ghost use Rattle.std.specs.Prelude.{◌≡◌, not, ◌&&◌, ◌||◌, ℕ, ℤ, pos};
ghost use Rattle.model.specs.Better.{distance, distance_between, in_role, in_edge};
ghost use Rattle.laws.specs.Runs.{values_between};
ghost use Rattle.laws.specs.Extremes.{has_role, at_farthest, none_better, none_worse};
ghost use Rattle.perfect.specs.Base.{base_mark};

use model::{BaseTerm, Role};
use terms::distances::{distance, distance_between};
use terms::vetted::run::Run;

// None better, or none worse beneath an odd number of DUALs.
pub fn base_mark(b: BaseTerm, run: &Run, odd: bool, x: i32) -> bool
    ensures { result ≡ base_mark odd b (values_between run.now.of.table.now run.now.k run.now.e) x }
{
    if odd {
        none_worse(b, run, x)
    } else {
        none_better(b, run, x)
    }
}

// No 32-bit value is better than x, by the kind of the term.
fn none_better(b: BaseTerm, run: &Run, x: i32) -> bool
    ensures { result ≡ none_better b (values_between run.now.of.table.now run.now.k run.now.e) x }
{
    match b {
        BaseTerm::Lowest => x == i32::MIN,
        BaseTerm::Highest => x == i32::MAX,
        BaseTerm::Around(wish) => x == wish,
        BaseTerm::Between(low, up) => !(x < low) & !(up < x),
        BaseTerm::Pos => in_role_or_none(run, Role::Favourite as u8, x),
        BaseTerm::Neg => !run.in_role(Role::Disliked as u8, x),
        BaseTerm::PosNeg => in_role_or_apart(run, Role::Favourite as u8, Role::Disliked as u8, x),
        BaseTerm::PosPos => first_or_second(run, x),
        BaseTerm::Explicit => best_end(run, x),
        BaseTerm::Any => true,
    }
}

// None is worse.
// As it is: beside `none_better`, since the kinds of terms have other answers here, and one match with both is no plainer.
fn none_worse(b: BaseTerm, run: &Run, x: i32) -> bool
    ensures { result ≡ none_worse b (values_between run.now.of.table.now run.now.k run.now.e) x }
{
    match b {
        BaseTerm::Lowest => x == i32::MAX,
        BaseTerm::Highest => x == i32::MIN,
        BaseTerm::Around(wish) => farthest(|y| distance(wish, y), x),
        BaseTerm::Between(low, up) => farthest(|y| distance_between(low, up, y), x),
        BaseTerm::Pos => !run.in_role(Role::Favourite as u8, x),
        BaseTerm::Neg => in_role_or_none(run, Role::Disliked as u8, x),
        BaseTerm::PosNeg => in_role_or_apart(run, Role::Disliked as u8, Role::Favourite as u8, x),
        BaseTerm::PosPos => in_neither(run, x),
        BaseTerm::Explicit => !in_edge(run, x),
        BaseTerm::Any => true,
    }
}

// No end of the range is farther than x, by that distance.
fn farthest<F: Fn(i32) -> i64>(distance: F, x: i32) -> bool
    requires { (y : ℤ) → F.pre distance y }
    ensures { (d : ℤ → ℕ) → ((y : ℤ) (r : ℤ) → F.post distance y r → r ≡ pos (d y)) → result ≡ at_farthest d x }
{
    let d = distance(x);
    !(d < distance(i32::MIN)) & !(d < distance(i32::MAX))
}

// x stands in the role, or no value does.
fn in_role_or_none(run: &Run, role: u8, x: i32) -> bool
    ensures { result ≡ (in_role role (values_between run.now.of.table.now run.now.k run.now.e) x
        || not (has_role role (values_between run.now.of.table.now run.now.k run.now.e))) }
{
    run.in_role(role, x) | !run.has_role(role)
}

// x stands in the role; or no value does, and x does not stand in the other role.
fn in_role_or_apart(run: &Run, role: u8, other: u8, x: i32) -> bool
    ensures { result ≡ (in_role role (values_between run.now.of.table.now run.now.k run.now.e) x
        || not (has_role role (values_between run.now.of.table.now run.now.k run.now.e))
        && not (in_role other (values_between run.now.of.table.now run.now.k run.now.e) x)) }
{
    run.in_role(role, x) | !run.has_role(role) & !run.in_role(other, x)
}

// POS/POS: x is a favourite; or there is none, and x is a second choice or there is none of them either.
fn first_or_second(run: &Run, x: i32) -> bool
    ensures { result ≡ (in_role 1 (values_between run.now.of.table.now run.now.k run.now.e) x
        || not (has_role 1 (values_between run.now.of.table.now run.now.k run.now.e))
        && (in_role 3 (values_between run.now.of.table.now run.now.k run.now.e) x
        || not (has_role 3 (values_between run.now.of.table.now run.now.k run.now.e)))) }
{
    run.in_role(Role::Favourite as u8, x)
        | !run.has_role(Role::Favourite as u8) & in_role_or_none(run, Role::SecondChoice as u8, x)
}

// POS/POS: x is neither a favourite nor a second choice.
fn in_neither(run: &Run, x: i32) -> bool
    ensures { result ≡ (not (in_role 1 (values_between run.now.of.table.now run.now.k run.now.e) x)
        && not (in_role 3 (values_between run.now.of.table.now run.now.k run.now.e) x)) }
{
    !run.in_role(Role::Favourite as u8, x) & !run.in_role(Role::SecondChoice as u8, x)
}

// EXPLICIT: there is no edge; or x is in some edge, and no edge begins at x.
fn best_end(run: &Run, x: i32) -> bool
    ensures { result ≡ (not (has_role 4 (values_between run.now.of.table.now run.now.k run.now.e))
        || in_edge (values_between run.now.of.table.now run.now.k run.now.e) x
        && not (in_role 4 (values_between run.now.of.table.now run.now.k run.now.e) x)) }
{
    !run.has_role(Role::Edge as u8) | in_edge(run, x) & !run.in_role(Role::Edge as u8, x)
}

// EXPLICIT: x is in some edge.
fn in_edge(run: &Run, x: i32) -> bool
    ensures { result ≡ in_edge (values_between run.now.of.table.now run.now.k run.now.e) x }
{
    run.end_place(x) < 2 * (run.e as usize)
}
