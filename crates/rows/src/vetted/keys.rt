// A key of each row, the same for rows of one group: rows whose keys differ need not be compared for the group. Each function
// asks what the calls have shown before.
ghost use Rattle.std.specs.Prelude.{◌≡◌, ◌*◌, ◌≤◌, ◌<◌, length};
ghost use Rattle.model.specs.Better.{cell};
ghost use Rattle.model.specs.Query.{row_at};
ghost use Rattle.rows.specs.Keys.{key_of, Keyed};

// Fills `keys` by the cells of the lowest column of the group; with 0 where the rows have no such column.
// As it is: columns, cells and n and no `Rows`, which would ask for at most 1,024 rows; this takes any number.
pub fn fill_keys(group: u8, columns: usize, cells: &[i32], n: usize, keys: &mut [u8])
    requires whole { length cells.now ≡ n * columns }
    requires narrow { columns ≤ 8 }
    requires room { n ≤ length keys.old }
    ensures { Keyed group columns cells.now n keys.new }
{
    let c = group.trailing_zeros() as usize;
    for i in 0..n {
        keys[i] = row_key(columns, cells, n, c, i);
    }
}

// The key of row i by column c.
fn row_key(columns: usize, cells: &[i32], n: usize, c: usize, i: usize) -> u8
    requires whole { length cells.now ≡ n * columns }
    requires within { i < n }
    ensures { result ≡ key_of (cell (row_at columns cells.now i) c) }
{
    if c < columns {
        key(cells[i * columns + c])
    } else {
        0
    }
}

// The low byte of x, which is counted from the lowest number.
fn key(x: i32) -> u8
    ensures { result ≡ key_of x }
{
    (x.cast_unsigned() % 256) as u8
}
