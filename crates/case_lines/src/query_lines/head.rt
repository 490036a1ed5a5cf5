// A query case's head: where it ends, and the options that it names.
use crate::read::{Cell, Cells};
use crate::vetted::input::parted;

// The head with the rows, and the records: the second colon ends the rows.
pub fn halves(line: &[u8]) -> (&[u8], &[u8]) {
    let (_, rest) = parted(line, b':');
    let (_, records) = parted(rest, b':');
    line.split_at(line.len() - records.len())
}

// The number after the head's name with that last letter, or the other where there is no such name.
pub fn option(asked: &Cells, letter: u8, other: u64) -> u64 {
    for place in 67..79 {
        if asked.cell(place) == Cell::Name(letter) {
            return asked.number(place + 1);
        }
    }
    other
}

// The number of rows that so many numbers make, and two more.
pub fn two_more(numbers: usize, columns: usize) -> u64 {
    match numbers.checked_div(columns) {
        Some(rows) => (rows % 65536) as u64 + 2,
        None => 2,
    }
}
