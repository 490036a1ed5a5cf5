// Loops over the 64 lanes of a block. Each function asks that its buffers have room. `known` has for each lane bits that the
// asked term's code has there, or 4 more and its whole code; from 3 on nothing can be added.
ghost use Rattle.std.specs.Prelude.{◌≡◌, true, cond, ◌+◌, ◌<◌, ◌≤◌, length};
ghost use Rattle.laws.specs.Wrote.{Wrote};
ghost use Rattle.lanes.specs.KnownLanes.{Told, Ended, start_lane, add_lane, pick_code, pick_lane, bits_lane};

use crate::each_lane::{put, some};
use plan::vetted::exit_masks::Exit;

// Nothing is known at first of a lane that is lit. Of the others nothing is asked.
pub fn start_known(live: &[u8], known: &mut [u8])
    requires live { 64 ≤ length live.now }
    requires known { 64 ≤ length known.old }
    ensures { Wrote 0 (start_lane live.now) 0 64 known.old known.new }
{
    put(&mut known[..64], |j, _| if live[j] == 1 { 0 } else { 3 });
}

// A record of mask m, whose codes stand from `from` on, tells what it tells. No branch on a code, so that 64 go at once.
pub fn tell_lanes(m: Exit, codes: &[u8], from: usize, known: &mut [u8])
    requires codes { from + 64 ≤ length codes.now }
    requires known { 64 ≤ length known.old }
    ensures { Told m codes.now from known.old known.new }
{
    match m {
        Exit::Bits => add_lanes(codes, from, known),
        _ => pick_lanes(m.told(1), m.told(2), m.told(3), codes, from, known),
    }
}

// The codes' own bits.
fn add_lanes(codes: &[u8], from: usize, known: &mut [u8])
    requires codes { from + 64 ≤ length codes.now }
    requires known { 64 ≤ length known.old }
    ensures { Wrote 0 (add_lane codes.now from known.old) 0 64 known.old known.new }
{
    put(&mut known[..64], |j, x| x | codes[from + j]);
}

// What is told by codes 1, 2 and 3.
fn pick_lanes(first: u8, second: u8, unranked: u8, codes: &[u8], from: usize, known: &mut [u8])
    requires codes { from + 64 ≤ length codes.now }
    requires known { 64 ≤ length known.old }
    ensures { Wrote 0 (pick_lane first second unranked codes.now from known.old) 0 64 known.old known.new }
{
    put(
        &mut known[..64],
        |j, x| x | pick(first, second, unranked, codes[from + j]),
    );
}

#[tactic(auto, unfolding(crate::specs::KnownLanes::pick_code))]
fn pick(first: u8, second: u8, unranked: u8, c: u8) -> u8
    ensures { result ≡ pick_code first second unranked c }
{
    match c {
        1 => first,
        2 => second,
        3 => unranked,
        _ => 0,
    }
}

// Nothing can be added in any lane.
pub fn all_known(known: &[u8]) -> bool
    requires { 64 ≤ length known.now }
    ensures { result ≡ true → Ended known.now 64 }
{
    !some(|j| known[j] < 3)
}

// The codes that are known, from `at` on.
pub fn put_known(known: &[u8], codes: &mut [u8], at: usize)
    requires known { 64 ≤ length known.now }
    requires codes { at + 64 ≤ length codes.old }
    ensures { Wrote 0 (bits_lane known.now) at 64 codes.old codes.new }
{
    put(&mut codes[at..at + 64], |j, _| known[j] % 4);
}
