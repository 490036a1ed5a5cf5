// One block of a row's round. `gone` has 0 for a row that is not gone, `first` the row in whose round a row was dropped.
ghost use Rattle.std.specs.Prelude.{◌+◌, ◌*◌, ◌≤◌, ◌<◌, length};
ghost use Rattle.laws.specs.Elimination.{Turn, Met};
ghost use Rattle.laws.specs.Firsts.{Firsts};
ghost use Rattle.rows.specs.Keys.{Keyed};
ghost use Rattle.blocks.specs.Alive.{Above};
ghost use Rattle.parts.specs.Beats.{beats_of};

use blocks::vetted::prepared::Blocks;
use lanes::vetted::lit::{any_hit, any_lit};
use lanes::vetted::marks::{gone_lanes, name_hits};

// Row i meets the rows of block b that are not gone, in its group. Those that it beats are gone; says whether one of them
// is better.
pub fn meet_block(
    blocks: &Blocks,
    i: usize,
    b: usize,
    gone: &mut [u8; 1024],
    first: &mut [u16; 1024],
    codes: &mut [u8],
) -> bool
    requires row { i < blocks.now.rows.n }
    requires block { b * 64 < blocks.now.rows.n }
    requires codes { 8192 ≤ length codes.old }
    requires turn { Turn (beats_of blocks.now) blocks.now.rows.n i (b * 64) gone.old }
    requires above { Above blocks.now.rows.n gone.old }
    requires firsts { Firsts (beats_of blocks.now) blocks.now.rows.n gone.old first.old }
    requires keyed { Keyed blocks.now.group blocks.now.rows.columns blocks.now.rows.cells.now blocks.now.rows.n blocks.now.keys.now }
    ensures met { Met (beats_of blocks.now) blocks.now.rows.n i (b * 64 + 64) gone.new result }
    ensures above { Above blocks.now.rows.n gone.new }
    ensures firsts { Firsts (beats_of blocks.now) blocks.now.rows.n gone.new first.new }
{
    let mut live = [0u8; 64];
    blocks.rivals_alive(i, b, gone, &mut live);
    if any_lit(&live) {
        blocks.block_codes(i, b, &live, codes);
        let top = (blocks.term as usize) * 64;
        let at = b * 64;
        gone_lanes(gone, at, &live, codes, top);
        name_hits(first, at, &live, codes, top, i as u16);
        return any_hit(&live, codes, top, 2);
    }
    false
}
