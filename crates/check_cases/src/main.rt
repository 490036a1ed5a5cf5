// Runs the check on the cases of the file stdin, a line for each. The file stdout has the answers, written by hand from
// the specification. The head of a case is the column count, and the length in bytes where it is not that of the
// records.
#![tactic(auto)]

use case_lines::read::Cells;
use case_lines::say;
use case_lines::vetted::input::each_case;
use model::{CheckReply, Summary};
use std::io;

fn main(rt: HostRuntime) -> io::Result<()> {
    let mut buffer = [0; 65536];
    each_case(&rt, &mut buffer, |line| answer(&rt, line))
}

// The head of a case of the check has no rows after it: it stands in the cells of the rows.
fn answer(rt: &impl Print, line: &[u8]) -> io::Result<()> {
    let cells = Cells::read(line, 128);
    match cells.table().get(..cells.length(130)) {
        Some(bytes) => reply(rt, table::check(bytes, cells.number(129) as usize)),
        None => Ok(()),
    }
}

fn reply(rt: &impl Print, given: CheckReply) -> io::Result<()> {
    match given {
        Ok(s) => accepted(rt, s),
        Err(why) => say::refused(rt, why),
    }
}

fn accepted(rt: &impl Print, s: Summary) -> io::Result<()> {
    print!(rt;
        "accepted records {} top {} columns {} count {}",
        s.records, s.top, s.columns, s.count
    )
}
