// The lines that `pick` prints besides those of the rows.
ghost use Rattle.std.specs.Prelude.{◌+◌, ◌≤◌, ◌++◌, length, get_or};
ghost use Rattle.model.specs.Pick.{refused_text, ok_text, rows_text};
ghost use Rattle.pick_text.specs.Printed.{Wrote};

use crate::fields::Text;
use model::{Refusal, Summary};

impl<'a> Text<'a> {
    // The line of a refusal.
    pub fn put_refused(&mut self, why: Refusal)
        requires { self.old.at + 18 ≤ length self.old.out.now }
        ensures { Wrote self.old (refused_text why) 18 self.new }
    {
        self.put(b"refused ");
        self.put_number(table::refusals::number(why));
        self.put_byte(b' ');
        self.put_place(table::refusals::place(why));
        self.put_byte(b'\n');
    }

    // The line of an answer, and a line for each entry.
    pub fn put_answer(&mut self, s: Summary, kept: u16, answers: &[u16])
        requires rows { length answers.now ≤ 1024 }
        requires room { self.old.at + 15378 ≤ length self.old.out.now }
        ensures { Wrote self.old (ok_text s kept ++ rows_text (length answers.now) (λ i. get_or answers.now i 0)) 15378 self.new }
    {
        self.put_head(s, kept);
        self.put_rows(answers);
    }

    // The line of an answer: its records, the columns that the top reads, the rows kept.
    fn put_head(&mut self, s: Summary, kept: u16)
        requires { self.old.at + 18 ≤ length self.old.out.now }
        ensures { Wrote self.old (ok_text s kept) 18 self.new }
    {
        self.put(b"ok ");
        self.put_number(s.records as u32);
        self.put_byte(b' ');
        self.put_number(s.count);
        self.put_byte(b' ');
        self.put_number(kept as u32);
        self.put_byte(b'\n');
    }
}
