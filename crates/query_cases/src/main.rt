// Runs Query by both engines on the cases of the file stdin, a line for each. The file stdout has the answers, written by
// hand from the specification. The head of a case is the column count and the term's record number, and, where they are not
// what is said here, the group byte (`group`, else 0; several with `to`, which must all give one answer), how many entries
// the buffer has (`buffer`, else two more than rows) and the table's length in bytes (`table`, else that of the records).
// The rows follow (`query_lines` of `case_lines`), then the records. An answer is the kept count or the refusal, and the whole buffer.
#![tactic(auto)]

use case_lines::query_answers::{Engine, Given, answer, apart, clear};
use case_lines::query_lines::head::{halves, option, two_more};
use case_lines::query_lines::rows;
use case_lines::read::Cells;
use case_lines::vetted::input::each_case;
use std::io;

fn main(rt: HostRuntime) -> io::Result<()> {
    let mut buffer = [0; 131072];
    each_case(&rt, &mut buffer, |line| case(&rt, line))
}

// Head and rows go into one array of cells and the records into another: rows may take more cells than stand before those
// of the records.
fn case(rt: &impl Print, line: &[u8]) -> io::Result<()> {
    let (head, end) = halves(line);
    let mut asked = Cells::read(head, 64);
    let records = Cells::read(end, 192);
    let mut numbers = [0i32; 8400];
    let m = rows::read(&mut asked, &mut numbers);
    let n = option(&asked, b'e', records.length(1) as u64) as usize;
    match records.table().get(..n) {
        Some(table) => with_room(rt, &asked, table, &numbers[..m]),
        None => Ok(()),
    }
}

fn with_room(rt: &impl Print, asked: &Cells, table: &[u8], rows: &[i32]) -> io::Result<()> {
    let columns = asked.number(65) as usize;
    let n = option(asked, b'r', two_more(rows.len(), columns)) as usize;
    if n > 1200 {
        return Ok(());
    }
    let query = Query {
        table,
        columns,
        rows,
        term: asked.number(66) as usize,
    };
    let first = (option(asked, b'p', 0) % 256) as u8;
    let last = (option(asked, b'o', first as u64) % 256) as u8;
    let mut known = [0u16; 1200];
    let mut other = [0u16; 1200];
    every_group(rt, &query, first, last, &mut known[..n], &mut other[..n])
}

// Says the one answer that both engines give for every group byte, or two that are apart.
fn every_group(
    rt: &impl Print,
    query: &Query,
    first: u8,
    last: u8,
    known: &mut [u16],
    other: &mut [u16],
) -> io::Result<()> {
    let known = query.by(Engine::Direct, first, known);
    for group in first..=last {
        for engine in [Engine::Direct, Engine::Parts] {
            let given = query.by(engine, group, other);
            if apart(rt, known, u64::from(group), engine, given)? {
                return Ok(());
            }
        }
    }
    answer(rt, known)
}

// What a case asks, but for the group byte.
#[derive(Clone, Copy)]
struct Query<'a> {
    table: &'a [u8],
    columns: usize,
    rows: &'a [i32],
    term: usize,
}

impl<'a> Query<'a> {
    fn by<'b>(&self, engine: Engine, group: u8, buffer: &'b mut [u16]) -> Given<'b> {
        let (table, columns, rows, term) = (self.table, self.columns, self.rows, self.term);
        clear(buffer);
        let reply = match engine {
            Engine::Direct => query::query_direct(table, columns, rows, term, group, buffer),
            Engine::Parts => query::query_by_parts(table, columns, rows, term, group, buffer),
        };
        Given { reply, buffer }
    }
}
