// A case's names and numbers, read from its line into cells: those of the head from cell 64 on, of the rows from 128 and 144
// on, of the records from 192 on, 16 cells to each. The first of each is in its second cell.
ghost use Rattle.std.specs.Prelude.{◌<◌, ◌≤◌, length};

// So many cells has a line.
const CELLS: usize = 4096;

const BITS_32: u64 = 1 << 32;

#[derive(Clone, Copy, PartialEq, Eq)]
pub enum Cell {
    Empty,
    // A name, by the byte of its last letter.
    Name(u8),
    // The digits after a name's letter go on from its byte.
    Number(u64),
    // The number's digits after a minus.
    Minus(u64),
}

impl Cell {
    // The number, a negative one as a word of 32 bits.
    pub fn number(self) -> u64 {
        match self {
            Cell::Empty => 0,
            Cell::Name(letter) => letter as u64,
            Cell::Number(n) => n,
            Cell::Minus(n) => BITS_32 - n % BITS_32,
        }
    }

    // Its low 32 bits.
    pub fn word(self) -> u32 {
        (self.number() % BITS_32) as u32
    }

    // The cell with one more letter, sign or digit: a letter or a sign begins it anew.
    fn with(self, b: u8) -> Self {
        match b {
            b'a'.. => Cell::Name(b),
            b'0'.. => {
                let digit = (b - b'0') as u64;
                match self {
                    Cell::Minus(n) => Cell::Minus(longer(n, digit)),
                    other => Cell::Number(longer(other.number(), digit)),
                }
            }
            b'-' => Cell::Minus(0),
            _ => self,
        }
    }
}

fn longer(n: u64, digit: u64) -> u64
    requires { digit ≤ 256 }
{
    10 * (n % 1000000000000) + digit
}

// The cells of a line, and the place of the one that the line has come to.
#[derive(Drop)]
pub struct Cells {
    at: usize,
    cells: [Cell; CELLS],
}

impl Cells {
    // The cells of a line whose first byte goes on from cell `from`.
    pub fn read(line: &[u8], from: usize) -> Self {
        let mut cells = Cells {
            at: from,
            cells: [Cell::Empty; CELLS],
        };
        for b in line {
            cells.put(*b);
        }
        cells
    }

    // A byte of the line goes to the cell that the one before it went to, or to the one that it begins.
    fn put(&mut self, b: u8) {
        let to = next(self.at % CELLS, b);
        if to % CELLS == 0 {
            self.at = turned(to, b);
        } else {
            self.at = to;
            self.cells[to] = self.cells[to].with(b);
        }
    }

    // The cell at a place.
    pub fn cell(&self, place: usize) -> Cell {
        if place % CELLS == 0 {
            return counted(self.at);
        }
        self.cells[place % CELLS]
    }

    pub fn number(&self, place: usize) -> u64 {
        self.cell(place).number()
    }

    pub fn word(&self, place: usize) -> u32 {
        self.cell(place).word()
    }

    pub fn set(&mut self, place: usize, cell: Cell) {
        self.cells[place % CELLS] = cell;
    }

    // The table's bytes.
    pub fn table(&self) -> [u8; 1560] {
        let mut bytes = [0u8; 1560];
        for (i, byte) in bytes.iter_mut().enumerate() {
            *byte = self.byte(i / 12, i % 12);
        }
        bytes
    }

    // A byte of a record: four fields of one byte, and two words, low byte first.
    fn byte(&self, record: usize, i: usize) -> u8
        requires { i < 12 }
    {
        let first = 193 + 16 * (record % 256);
        match i {
            0..4 => self.word(first + i).to_le_bytes()[0],
            4..8 => self.word(first + 4).to_le_bytes()[i - 4],
            _ => self.word(first + 5).to_le_bytes()[i - 8],
        }
    }

    // The numbers of the row whose first number is in cell `from`. Returns how many.
    pub fn row(&self, from: usize, numbers: &mut [i32]) -> usize
        ensures { result ≤ length numbers.new }
    {
        for (i, number) in numbers.iter_mut().enumerate() {
            let cell = self.cell(from % 2048 + i % 2048);
            if cell == Cell::Empty {
                return i;
            }
            *number = cell.word().cast_signed();
        }
        numbers.len()
    }

    // The table's length in bytes: the number at a place, or 12 to a record where that is 0.
    pub fn length(&self, place: usize) -> usize {
        match self.number(place) {
            0 => 12 * ((self.at % CELLS + CELLS - 192).div_ceil(16) % 256),
            given => given as usize,
        }
    }
}

// The cell that a byte goes to, after one that went to cell `at`.
fn next(at: usize, b: u8) -> usize
    requires { at < 4096 }
    ensures { result ≤ 4096 }
{
    match b {
        b' ' => at + 1,
        b',' => at - at % 16 + 16,
        b':' => at - at % 64 + 64,
        _ => at,
    }
}

// As it is: what a line too long for the cells gives may not change. It comes to cell 0, which counts the cells: this is where
// a byte that goes there sends the line on to, and `counted` is what that cell has.
fn turned(to: usize, b: u8) -> usize
    requires { to ≤ 4096 }
{
    match b {
        b'a'.. => 4 * b as usize,
        b'0'.. => 10 * to + 4 * (b - b'0') as usize + 2,
        b'-' => 3,
        _ => to,
    }
}

fn counted(at: usize) -> Cell {
    let n = (at / 4) as u64;
    match at {
        0 => Cell::Empty,
        _ if at % 2 == 1 => Cell::Minus(n),
        _ => Cell::Number(n),
    }
}
