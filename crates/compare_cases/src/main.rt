// Runs Compare and Perfect on the cases of the file stdin, a line for each. The file stdout has the answers, written by hand
// from the specification. The head of a case is the call's name, the column count, the term's record number, and the table's
// length in bytes where it is not that of the records. Two rows follow for compare, one for perfect.
#![tactic(auto)]

use case_lines::read::Cells;
use case_lines::say;
use case_lines::vetted::input::each_case;
use model::{CompareReply, Mark, Outcome, PerfectReply};
use std::io;

fn main(rt: HostRuntime) -> io::Result<()> {
    let mut buffer = [0; 131072];
    each_case(&rt, &mut buffer, |line| answer(&rt, line))
}

fn answer(rt: &impl Print, line: &[u8]) -> io::Result<()> {
    let cells = Cells::read(line, 64);
    match cells.table().get(..cells.length(68)) {
        Some(table) => rows(rt, &cells, table),
        None => Ok(()),
    }
}

fn rows(rt: &impl Print, cells: &Cells, table: &[u8]) -> io::Result<()> {
    let mut a = [0i32; 15];
    let n = cells.row(129, &mut a);
    let mut b = [0i32; 15];
    let m = cells.row(145, &mut b);
    call(rt, cells, table, &a[..n], &b[..m])
}

// Of the two names, perfect ends in t.
fn call(
    rt: &impl Print,
    cells: &Cells,
    table: &[u8],
    first: &[i32],
    second: &[i32],
) -> io::Result<()> {
    let columns = cells.number(66) as usize;
    let term = cells.number(67) as usize;
    if cells.number(65) == b't' as u64 {
        marked(rt, perfect::perfect(table, columns, term, first))
    } else {
        compared(rt, compare::compare(table, columns, term, first, second))
    }
}

fn compared(rt: &impl Print, given: CompareReply) -> io::Result<()> {
    match given {
        Ok(o) => rt.print(outcome(o)),
        Err(why) => say::refused(rt, why),
    }
}

fn marked(rt: &impl Print, given: PerfectReply) -> io::Result<()> {
    match given {
        Ok(m) => rt.print(mark(m)),
        Err(why) => say::refused(rt, why),
    }
}

fn outcome(o: Outcome) -> &'static str {
    match o {
        Outcome::Same => "same",
        Outcome::First => "first better",
        Outcome::Second => "second better",
        Outcome::Unranked => "unranked",
    }
}

fn mark(m: Mark) -> &'static str {
    match m {
        Mark::Yes => "perfect",
        Mark::No => "not perfect",
    }
}
