// What an engine is asked: a query that refuses nothing.
ghost use Rattle.std.specs.Prelude.{◌≡◌, ◌+◌, ◌*◌};
ghost use Rattle.laws.specs.Taken.{TakenTerm};

use rows::vetted::run::Rows;

// A term record of an accepted table, a run of rows, and a group byte.
#[derive(Clone, Copy)]
pub struct Asked<'a> {
    pub table: &'a [u8],
    pub rows: Rows<'a>,
    pub term: u8,
    pub group: u8,
    pub ghost taken: { TakenTerm table.now rows.columns term },
}

impl Asked<'_> {
    // How many ranks a block of 64 rows takes: 64 for each record up to the term.
    pub fn stride(&self) -> usize
        ensures { result ≡ self.now.term * 64 + 64 }
    {
        (self.term as usize) * 64 + 64
    }
}
