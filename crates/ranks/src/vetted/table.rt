// The ranks of all rows under the marked base records, block by block: a block takes `stride` entries, 64 for each record.
// Each function asks what the calls of Query have shown before.
ghost use Rattle.std.specs.Prelude.{◌+◌, ◌*◌, ◌≤◌, ◌<◌, length};
ghost use Rattle.rows.specs.Values.{Room};
ghost use Rattle.ranks.specs.Ranked.{Ranked, Rankable, RankOf, Ranking};

use crate::stretches::fill_stretch;
use model::{BaseTerm, Record};
use rows::vetted::column::Column;
use rows::vetted::run::Rows;
use terms::vetted::run::{Numbered, Run};

// Fills `ranks` for the records up to the term.
pub fn fill_ranks(
    of: &Numbered,
    ends: &[u8; 128],
    marks: &[bool; 128],
    term: u8,
    rows: &Rows,
    stride: usize,
    ranks: &mut [i32],
)
    requires { Rankable of.now.table.now ends.now term rows.now.columns rows.now.n stride (length ranks.old) }
    ensures { Ranked of.now.table.now ends.now marks.now rows.now.columns rows.now.cells.now
        rows.now.n stride (term + 1) ranks.new }
{
    for k in 0..term + 1 {
        if marks[k as usize] {
            if let Record::Base(column, b) = of.record(k) {
                let run = Run {
                    of: *of,
                    k,
                    e: ends[k as usize],
                };
                fill_column(&run, column, b, rows, stride, ranks);
            }
        }
    }
}

// Fills in the ranks under one base term, block by block.
fn fill_column(run: &Run, column: u8, b: BaseTerm, rows: &Rows, stride: usize, ranks: &mut [i32])
    requires below { column < rows.now.columns }
    requires wide { run.now.k * 64 + 64 ≤ stride }
    requires room { Room rows.now.n stride (length ranks.old) }
    ensures { Ranking (RankOf run.now.of.table.now run.now.k run.now.e b rows.now.columns rows.now.cells.now column)
        rows.now.n stride run.now.k rows.now.n ranks.old ranks.new }
{
    for i in 0..rows.n.div_ceil(64) {
        let cells = Column {
            rows: *rows,
            b: i,
            c: column as usize,
        };
        let at = i * stride + (run.k as usize) * 64;
        let m = cells.height();
        fill_stretch(run, b, &cells, &mut ranks[at..at + m]);
    }
}
