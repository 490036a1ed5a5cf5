// EXPLICIT by the places of two numbers among the ends of the edges.
ghost use Rattle.std.specs.Prelude.{◌≡◌, ◌*◌, ◌≤◌, length};
ghost use Rattle.terms.specs.Places.{Ends, leads_to};

// Whether the number at place q is better than that at place p; 2 e is the place of a number in no edge.
// As it is: 2 e for none is no plainer as an Option. It is the place past the last one of the ends.
pub fn leads(reach: &[[bool; 32]], k: u8, e: u8, p: usize, q: usize) -> bool
    requires place { Ends k e p }
    requires other { Ends k e q }
    requires rows { 2 * e ≤ length reach.now }
    ensures { result ≡ leads_to reach.now k e p q }
{
    let none = 2 * (e as usize);
    if q == none {
        return false;
    }
    if p == none {
        return true;
    }
    let at = q - (2 * (k as usize) + 2);
    reach[p][at]
}
