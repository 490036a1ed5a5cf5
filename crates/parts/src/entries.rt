// The names that are known at the start, and the answers at the end. `by` has the row that is named for a row, or 1024 for none
// yet.
ghost use Rattle.std.specs.Prelude.{◌≡◌, ◌≤◌, eqb, length, get_or};
ghost use Rattle.model.specs.Search.{count_below, fill};
ghost use Rattle.laws.specs.Wrote.{Wrote};
ghost use Rattle.parts.specs.Entry.{entry_of, first_name};

use crate::kept::Kept;

impl Kept<'_> {
    // The names that are known before a row names: a kept row in whose round a row was dropped.
    pub fn first_names(&self, first: &[u16; 1024], by: &mut [u16; 1024])
        ensures { Wrote 0 (first_name self.now.gone.now first.now) 0 self.now.of.rows.n by.old by.new }
    {
        for j in 0..self.of.rows.n {
            let at = first[j] as usize;
            by[j] = if at < j && self.gone[at] == 0 {
                first[j]
            } else {
                1024
            };
        }
    }

    // Writes an entry for each row. Returns how many are kept.
    pub fn write_answers(&self, by: &[u16; 1024], answers: &mut [u16]) -> u16
        requires { self.now.of.rows.n ≤ length answers.old }
        ensures counted { result ≡ count_below self.now.of.rows.n (λ j. eqb (get_or self.now.gone.now j 0) 0) }
        ensures written { answers.new ≡ fill self.now.of.rows.n (entry_of self.now.gone.now by.now) answers.old }
    {
        let mut kept = 0u16;
        for i in 0..self.of.rows.n {
            if self.gone[i] == 0 {
                answers[i] = i as u16;
                kept += 1;
            } else {
                answers[i] = by[i];
            }
        }
        kept
    }
}
