// A run of rows: its numbers, how many stand in a row, and how many rows there are.
ghost use Rattle.std.specs.Prelude.{◌≡◌, ◌*◌, ◌≤◌, length};

// n rows of `columns` numbers each, one after the other.
#[derive(Clone, Copy)]
pub struct Rows<'a> {
    pub columns: usize,
    pub cells: &'a [i32],
    pub n: usize,
    pub ghost whole: { length cells.now ≡ n * columns },
    pub ghost narrow: { columns ≤ 8 },
    pub ghost few: { n ≤ 1024 },
}
