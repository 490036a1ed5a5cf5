// The cells of all rows, block by block: a block is 64 rows, and in it each column has its 64 cells in one stretch. Each
// function asks what the calls have shown before.
ghost use Rattle.std.specs.Prelude.{◌+◌, ◌*◌, ◌<◌, length};
ghost use Rattle.rows.specs.Values.{Room, Valued, Filled};

use crate::vetted::column::Column;
use crate::vetted::run::Rows;

// Fills `values` with the cells of the n rows.
pub fn fill_values(rows: &Rows, values: &mut [i32])
    requires room { Room rows.now.n 512 (length values.old) }
    ensures { Valued rows.now.columns rows.now.cells.now rows.now.n rows.now.columns values.new }
{
    for b in 0..rows.n.div_ceil(64) {
        fill_block(rows, b, values);
    }
}

// Fills block b, whose rows and cells are few enough to stay near, column by column.
fn fill_block(rows: &Rows, b: usize, values: &mut [i32])
    requires within { b * 64 < rows.now.n }
    requires room { Room rows.now.n 512 (length values.old) }
    requires filled { Filled rows.now.columns rows.now.cells.now rows.now.n b 0 values.old }
    ensures { Filled rows.now.columns rows.now.cells.now rows.now.n (b + 1) 0 values.new }
{
    for c in 0..rows.columns {
        let column = Column { rows: *rows, b, c };
        let at = b * 512 + c * 64;
        let m = column.height();
        column.fill(|x| x, &mut values[at..at + m]);
    }
}
