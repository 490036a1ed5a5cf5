// Loops over the 64 lanes of a block: what a row makes of the lit lanes that it beats, those of code 1. Each function asks
// that its buffers have room. `live` has 1 for a lane that is lit. `gone` has 0 for a row that is not gone. `by` has the row
// that is named for a row.
ghost use Rattle.std.specs.Prelude.{◌≡◌, cond, ◌+◌, ◌≤◌, length};
ghost use Rattle.laws.specs.Wrote.{Wrote};
ghost use Rattle.lanes.specs.Marks.{gone_lane, name_lane};

use crate::each_lane::put;
use crate::vetted::lit::any_hit;

// Their rows are gone.
pub fn gone_lanes(gone: &mut [u8], at: usize, live: &[u8], codes: &[u8], top: usize)
    requires gone { at + 64 ≤ length gone.old }
    requires live { 64 ≤ length live.now }
    requires codes { top + 64 ≤ length codes.now }
    ensures { Wrote 0 (gone_lane gone.old at live.now codes.now top) at 64 gone.old gone.new }
{
    put(
        &mut gone[at..at + 64],
        |j, x| ((x != 0) | ((live[j] == 1) & (codes[top + j] == 1))) as u8,
    );
}

// Row i is named for their rows; nothing is gone through where there are none, as in most blocks of a round.
pub fn name_hits(by: &mut [u16], at: usize, live: &[u8], codes: &[u8], top: usize, i: u16)
    requires by { at + 64 ≤ length by.old }
    requires live { 64 ≤ length live.now }
    requires codes { top + 64 ≤ length codes.now }
    ensures { Wrote 0 (name_lane by.old at live.now codes.now top i) at 64 by.old by.new }
{
    if any_hit(live, codes, top, 1) {
        name_lanes(by, at, live, codes, top, i);
    }
}

// Row i is named for their rows.
pub fn name_lanes(by: &mut [u16], at: usize, live: &[u8], codes: &[u8], top: usize, i: u16)
    requires by { at + 64 ≤ length by.old }
    requires live { 64 ≤ length live.now }
    requires codes { top + 64 ≤ length codes.now }
    ensures { Wrote 0 (name_lane by.old at live.now codes.now top i) at 64 by.old by.new }
{
    put(
        &mut by[at..at + 64],
        |j, x| if (live[j] == 1) & (codes[top + j] == 1) {
            i
        } else {
            x
        },
    );
}
