// A compound's code from its parts' codes (SPECIFICATION, "When a row is better"; codes as in laws/specs/Codes.antt):
// PRIOR and DUAL. PARETO and BOTH are the bitwise or.
// As it is: a code is a number, no enum. That is no plainer: its two bits are a set, which `|` joins with another's.
ghost use Rattle.std.specs.Prelude.{◌≡◌};
ghost use Rattle.laws.specs.Codes.{prior_code, turned_code};

// The left's unless it is same, then the right's.
#[tactic(auto, unfolding(laws::specs::Codes::prior_code))]
pub fn prior_code(a: u8, b: u8) -> u8
    ensures { result ≡ prior_code a b }
{
    match a {
        0 => b,
        left => left,
    }
}

// First better and second better change places.
#[tactic(auto, unfolding(laws::specs::Codes::turned_code))]
pub fn turned_code(a: u8) -> u8
    ensures { result ≡ turned_code a }
{
    match a {
        1 => 2,
        2 => 1,
        other => other,
    }
}
