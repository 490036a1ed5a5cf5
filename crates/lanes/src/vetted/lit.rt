// Loops over the 64 lanes of a block: which are lit. Each function asks that its buffers have room. `live` has 1 for a lane
// that is lit. `gone` has 0 for a row that is not gone. `by` has the row that is named for a row, or 1024 for none yet.
// As it is: numbers, no `bool` and no Option, which are no plainer where 64 are compared and written at once.
ghost use Rattle.std.specs.Prelude.{◌≡◌, ◌+◌, ◌≤◌, length};
ghost use Rattle.model.specs.Search.{any_below};
ghost use Rattle.laws.specs.Wrote.{Wrote};
ghost use Rattle.lanes.specs.Lit.{free_lane, pending_lane, lit, hit};

use crate::each_lane::{put, some};

// Lit where the row is not gone.
pub fn free_lanes(gone: &[u8], at: usize, live: &mut [u8])
    requires gone { at + 64 ≤ length gone.now }
    requires live { 64 ≤ length live.old }
    ensures { Wrote 0 (free_lane gone.now at) 0 64 live.old live.new }
{
    put(&mut live[..64], |j, _| (gone[at + j] == 0) as u8);
}

// Lit where the row is gone and no row is named for it.
pub fn pending_lanes(gone: &[u8], by: &[u16], at: usize, live: &mut [u8])
    requires gone { at + 64 ≤ length gone.now }
    requires by { at + 64 ≤ length by.now }
    requires live { 64 ≤ length live.old }
    ensures { Wrote 0 (pending_lane gone.now by.now at) 0 64 live.old live.new }
{
    put(
        &mut live[..64],
        |j, _| ((gone[at + j] != 0) & (by[at + j] == 1024)) as u8,
    );
}

// Some lane is lit.
pub fn any_lit(live: &[u8]) -> bool
    requires { 64 ≤ length live.now }
    ensures { result ≡ any_below 64 (lit live.now) }
{
    some(|j| live[j] == 1)
}

// Some lit lane has code c.
pub fn any_hit(live: &[u8], codes: &[u8], top: usize, c: u8) -> bool
    requires live { 64 ≤ length live.now }
    requires codes { top + 64 ≤ length codes.now }
    ensures { result ≡ any_below 64 (hit live.now codes.now top c) }
{
    some(|j| (live[j] == 1) & (codes[top + j] == c))
}
