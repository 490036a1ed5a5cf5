// The rank of a value under a base term that goes by its number: the lower is better.
ghost use Rattle.std.specs.Prelude.{◌≡◌, pos, ◌-ℤ◌};
ghost use Rattle.model.specs.Bytes.{Value32};
ghost use Rattle.model.specs.Better.{distance, distance_between};
ghost use Rattle.ranks.specs.Rank.{centred, mirror};

use terms::distances::{distance, distance_between};

// HIGHEST: the higher value has the lower rank.
pub fn mirror_rank(x: i32) -> i32
    ensures { result ≡ mirror x }
{
    -1 - x
}

// AROUND: by distance to the wish.
pub fn around_rank(wish: i32, x: i32) -> i32
    ensures { result ≡ centred (distance wish x) }
{
    centred(distance(wish, x))
}

// BETWEEN: by distance to the nearer bound.
pub fn between_rank(low: i32, up: i32, x: i32) -> i32
    ensures { result ≡ centred (distance_between low up x) }
{
    centred(distance_between(low, up, x))
}

// A distance, moved into the range of 32 signed bits.
fn centred(d: i64) -> i32
    requires { Value32 (d -ℤ pos 2147483648) }
    ensures { result ≡ d -ℤ pos 2147483648 }
{
    (d - 2147483648) as i32
}
