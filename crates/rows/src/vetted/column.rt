// The cells of one block's rows in one column, and what is made from each of them.
ghost use Rattle.std.specs.Prelude.{◌≡◌, ℕ, ℤ, pos, ◌+◌, ◌*◌, ◌≤◌, ◌<◌, get_or, length};
ghost use Rattle.model.specs.Bytes.{Value32};
ghost use Rattle.model.specs.Better.{cell};
ghost use Rattle.model.specs.Query.{row_at};
ghost use Rattle.rows.specs.Stretch.{Made};

use crate::vetted::run::Rows;

// Column c of block b.
#[derive(Clone, Copy)]
pub struct Column<'a> {
    pub rows: Rows<'a>,
    pub b: usize,
    pub c: usize,
    pub ghost block: { b * 64 < rows.n },
    pub ghost column: { c < rows.columns },
}

impl Column<'_> {
    // How many rows the block has.
    pub fn height(&self) -> usize
        ensures few { result ≤ 64 }
        ensures within { self.now.b * 64 + result ≤ self.now.rows.n }
        ensures all { (j : ℕ) → j < 64 → self.now.b * 64 + j < self.now.rows.n → j < result }
    {
        (self.rows.n - self.b * 64).min(64)
    }

    // Fills the entries, one for each row: each is made from the row's cell by `rank`.
    pub fn fill<F: Fn(i32) -> i32>(&self, rank: F, entries: &mut [i32])
        requires takes { (x : ℤ) → Value32 x → F.pre rank x }
        requires within { self.now.b * 64 + length entries.old ≤ self.now.rows.n }
        ensures { Made (F.post rank) self.now.rows.columns self.now.rows.cells.now self.now.b self.now.c entries.new }
    {
        let first = self.b * 64 * self.rows.columns + self.c;
        for (j, entry) in entries.iter_mut().enumerate() {
            *entry = rank(self.rows.cells[first + j * self.rows.columns]);
        }
    }

    // The cells, one for each row, and zeros after them.
    pub fn cells(&self) -> [i32; 64]
        ensures { (j : ℕ) → j < 64 → self.now.b * 64 + j < self.now.rows.n
            → get_or result j (pos 0) ≡ cell (row_at self.now.rows.columns self.now.rows.cells.now (self.now.b * 64 + j)) self.now.c }
    {
        let mut cells = [0i32; 64];
        let m = self.height();
        self.fill(|x| x, &mut cells[..m]);
        cells
    }
}
