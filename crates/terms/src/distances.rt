// Distances of AROUND and BETWEEN (SPECIFICATION, "When a row is better"). They run to 4,294,967,295, so that numbers
// are widened before subtraction.
ghost use Rattle.std.specs.Prelude.{◌≡◌, pos};
ghost use Rattle.model.specs.Better.{distance, distance_between};

// Distance is the exact difference to the wish,
pub fn distance(wish: i32, x: i32) -> i64
    ensures { result ≡ pos (distance wish x) }
{
    let w = i64::from(wish);
    let v = i64::from(x);
    (v - w).abs()
}

// or to the nearer bound and 0 inside.
#[tactic(auto, unfolding(model::specs::Better::distance_between))]
pub fn distance_between(low: i32, up: i32, x: i32) -> i64
    ensures { result ≡ pos (distance_between low up x) }
{
    if x < low {
        return distance(low, x);
    }
    if up < x {
        return distance(up, x);
    }
    0
}

// ---- instances of the contract: below, at and above the wish, and from each end of the range to the other

pub fn below_the_wish() -> i64
    ensures { result ≡ pos 5 }
{
    distance(24, 19)
}

pub fn at_the_wish() -> i64
    ensures { result ≡ pos 0 }
{
    distance(24, 24)
}

pub fn above_the_wish() -> i64
    ensures { result ≡ pos 7 }
{
    distance(24, 31)
}

pub fn least_to_most() -> i64
    ensures { result ≡ pos 4294967295 }
{
    distance(2147483647, -2147483648)
}

pub fn most_to_least() -> i64
    ensures { result ≡ pos 4294967295 }
{
    distance(-2147483648, 2147483647)
}
