// Loops over the 64 lanes of a block: lit lanes are put out where the row's key or cell is another. Each function asks that
// its buffers have room. `live` has 1 for a lane that is lit.
ghost use Rattle.std.specs.Prelude.{◌+◌, ◌≤◌, length};
ghost use Rattle.laws.specs.Wrote.{Wrote};
ghost use Rattle.lanes.specs.Equal.{key_lane, equal_lane};

use crate::each_lane::put;

// Lit where it was and the key is the one given.
pub fn key_lanes(keys: &[u8; 1024], at: usize, key: u8, live: &mut [u8])
    requires keys { at + 64 ≤ 1024 }
    requires live { 64 ≤ length live.old }
    ensures { Wrote 0 (key_lane live.old key keys.now at) 0 64 live.old live.new }
{
    put(
        &mut live[..64],
        |j, x| ((x == 1) & (key == keys[at + j])) as u8,
    );
}

// Lit where it was and the value is v.
pub fn equal_lanes(values: &[i32], at: usize, v: i32, live: &mut [u8])
    requires values { at + 64 ≤ length values.now }
    requires live { 64 ≤ length live.old }
    ensures { Wrote 0 (equal_lane live.old v values.now at) 0 64 live.old live.new }
{
    put(
        &mut live[..64],
        |j, x| ((x == 1) & (v == values[at + j])) as u8,
    );
}
