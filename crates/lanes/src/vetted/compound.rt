// The codes of a compound, from its parts' codes and nothing else: `codes` has `count` for each record, and the parts' stand
// below the compound's own.
ghost use Rattle.std.specs.Prelude.{◌≡◌, ◌+◌, ◌*◌, ◌<◌, ◌≤◌, length};
ghost use Rattle.plan.specs.Beneath.{OfParts};
ghost use Rattle.laws.specs.Wrote.{Wrote};
ghost use Rattle.lanes.specs.Compound.{compound_lane};

use crate::each_lane::put;
use model::{CompoundTerm, Pair};
use terms::codes::{prior_code, turned_code};

// Compound k's, where each record has `count`.
pub fn compound_lanes(c: CompoundTerm, codes: &mut [u8], k: u8, count: usize)
    requires codes { k * count + count ≤ length codes.old }
    requires parts { OfParts (λ p. p < k) c }
    ensures { Wrote 0 (compound_lane count c codes.old) (k * count) count codes.old codes.new }
{
    let (parts, rest) = codes.split_at_mut((k as usize) * count);
    let own = &mut rest[..count];
    match c {
        CompoundTerm::Joined(op, p, q) => {
            let (l, r) = ((p as usize) * count, (q as usize) * count);
            match op {
                // The parts of BOTH read the same columns.
                Pair::Pareto | Pair::Both => put(own, |j, _| parts[l + j] | parts[r + j]),
                // The left's unless it is same, then the right's.
                Pair::Prior => put(own, |j, _| prior_code(parts[l + j], parts[r + j])),
            }
        }
        CompoundTerm::Dual(p) => {
            let l = (p as usize) * count;
            // First better and second better change places.
            put(own, |j, _| turned_code(parts[l + j]));
        }
    }
}
