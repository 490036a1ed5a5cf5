// A line for each row: a line has at most 15 bytes.
ghost use Rattle.std.specs.Prelude.{◌+◌, ◌*◌, ◌≤◌, length, get_or};
ghost use Rattle.model.specs.Pick.{row_text, rows_text};
ghost use Rattle.pick_text.specs.Printed.{Wrote};

use crate::fields::Text;

impl<'a> Text<'a> {
    // A line for each entry.
    pub fn put_rows(&mut self, answers: &[u16])
        requires rows { length answers.now ≤ 1024 }
        requires room { self.old.at + 15 * length answers.now ≤ length self.old.out.now }
        ensures { Wrote self.old (rows_text (length answers.now) (λ i. get_or answers.now i 0)) (15 * length answers.now) self.new }
    {
        for (i, e) in answers.iter().enumerate() {
            self.put_row(i as u16, *e);
        }
    }

    // The line of row i, whose entry is e.
    fn put_row(&mut self, i: u16, e: u16)
        requires { self.old.at + 15 ≤ length self.old.out.now }
        ensures { Wrote self.old (row_text i e) 15 self.new }
    {
        self.put_number(i as u32);
        if e == i {
            self.put(b" keep\n");
            return;
        }
        self.put(b" drop ");
        self.put_number(e as u32);
        self.put_byte(b'\n');
    }
}
