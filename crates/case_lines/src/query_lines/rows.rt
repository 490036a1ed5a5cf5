// The rows of a case, from its cells: numbers, with commas between stretches of up to 15 names and numbers. `3 times` before
// a stretch has it three times; `0 to 9` in it is one number more each time, `9 to 0` one less, and without `times` a stretch
// that begins so is had as often as that takes.
ghost use Rattle.std.specs.Prelude.{◌<◌, ◌≤◌, length};

use crate::read::{Cell, Cells};

const TIMES: Cell = Cell::Name(b's');

const TO: Cell = Cell::Name(b'o');

// The numbers of all rows. Returns how many.
pub fn read(cells: &mut Cells, numbers: &mut [i32]) -> usize
    ensures { result ≤ length numbers.new }
{
    let mut n = 0;
    for from in (129..2032).step_by(16) {
        n += stretch(cells, from, &mut numbers[n..]);
    }
    n
}

// The numbers of the stretch that begins in cell `from`. Returns how many.
fn stretch(cells: &mut Cells, from: usize, numbers: &mut [i32]) -> usize
    requires { from < 2032 }
    ensures { result ≤ length numbers.new }
{
    match cells.cell(from + 1) {
        TIMES => {
            let count = cells.number(from) % 65536;
            repeated(cells, from + 2, count as u32, numbers)
        }
        TO => {
            let last = distance(cells, from).unsigned_abs() % 65536;
            repeated(cells, from, last + 1, numbers)
        }
        _ => repeated(cells, from, 1, numbers),
    }
}

fn repeated(cells: &mut Cells, from: usize, count: u32, numbers: &mut [i32]) -> usize
    ensures { result ≤ length numbers.new }
{
    let mut n = 0;
    for time in 0..count {
        write(cells, from, time);
        n += cells.row(1, &mut numbers[n..]);
    }
    n
}

// The stretch as it is at that time, counted from 0, goes into the cells 1 to 15, to be read from there.
fn write(cells: &mut Cells, from: usize, time: u32) {
    let mut i = from % 2048;
    for k in 1..16 {
        let cell = at_time(cells, i, time);
        cells.set(k, cell);
        i = i % 2048 + width(cells, i);
    }
}

// How many cells the number in cell i takes. Names are looked for among the first 2,048 cells: past them the line begins anew.
fn width(cells: &Cells, i: usize) -> usize
    requires { i < 2051 }
    ensures { result ≤ 3 }
{
    if cells.cell(i % 2048 + 1) == TO { 3 } else { 1 }
}

// What the cell of the number in cell i is at that time.
fn at_time(cells: &Cells, i: usize, time: u32) -> Cell
    requires { i < 2051 }
{
    if cells.cell(i % 2048 + 1) != TO {
        return cells.cell(i % 2048);
    }
    let first = cells.word(i);
    let word = if distance(cells, i) >= 0 {
        first.wrapping_add(time)
    } else {
        first.wrapping_sub(time)
    };
    Cell::Number(word as u64)
}

// How far it is from the number in cell i to the last that it becomes, in 32 bits.
fn distance(cells: &Cells, i: usize) -> i32
    requires { i < 2051 }
{
    cells
        .word(i % 2048 + 2)
        .wrapping_sub(cells.word(i))
        .cast_signed()
}
