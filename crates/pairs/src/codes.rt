// Two rows of a run compared under a term record of an accepted table: upward through the records beneath it, each with a
// code, until the term's is known. Each function asks what was prepared before. Codes: same 0, first better 1, second better
// 2, unranked 3.
ghost use Rattle.std.specs.Prelude.{◌≡◌};
ghost use Rattle.model.specs.Term.{term_at};
ghost use Rattle.laws.specs.Codes.{code};

use crate::pair::Pair;

impl Pair<'_> {
    // The code of the two rows. `known` has the bits of the term's code that are told so far, and no others; from 3 on it is
    // the whole code. `codes` has room for a code of each record.
    #[inline(always)]
    pub fn code(&self, codes: &mut [u8; 128]) -> u8
        ensures { result ≡ code (term_at self.now.of.now.table.now self.now.of.now.term) self.now.first.now
            self.now.second.now }
    {
        let of = self.of;
        let mut known = 0u8;
        let mut k = 0u8;
        // As it is: the next record is ends[k], past the values of this one, which no range gives.
        while k <= of.term {
            let at = k as usize;
            if of.marks[at] {
                let c = self.record_code(k, codes);
                let more = known | of.exits[at].told(c);
                if more >= 3 {
                    return more % 4;
                }
                known = more;
                codes[at] = c;
            }
            k = of.ends[at];
        }
        known
    }
}
