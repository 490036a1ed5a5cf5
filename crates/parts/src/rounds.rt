// Which rows are kept: every row that is not gone has its round, in which it meets the later rows block by block. `first` has
// the row in whose round a row was dropped, or 1024 for none.
// As it is: `Option<u16>` is no plainer in a buffer of which lanes write 64 entries at a time.
ghost use Rattle.std.specs.Prelude.{◌+◌, ◌≤◌, ◌<◌, length};
ghost use Rattle.laws.specs.Elimination.{Rounds, Settled};
ghost use Rattle.laws.specs.Firsts.{Firsts};
ghost use Rattle.rows.specs.Keys.{Keyed};
ghost use Rattle.blocks.specs.Alive.{Above};
ghost use Rattle.parts.specs.Beats.{beats_of};

use crate::meetings::meet_block;
use blocks::vetted::prepared::Blocks;

// All rounds, with no row gone at first: a row is not gone exactly where it is kept.
pub fn eliminate(blocks: &Blocks, gone: &mut [u8; 1024], first: &mut [u16; 1024], codes: &mut [u8])
    requires codes { 8192 ≤ length codes.old }
    requires rounds { Rounds (beats_of blocks.now) blocks.now.rows.n 0 gone.old }
    requires above { Above blocks.now.rows.n gone.old }
    requires firsts { Firsts (beats_of blocks.now) blocks.now.rows.n gone.old first.old }
    requires keyed { Keyed blocks.now.group blocks.now.rows.columns blocks.now.rows.cells.now blocks.now.rows.n blocks.now.keys.now }
    ensures settled { Settled (beats_of blocks.now) blocks.now.rows.n gone.new }
    ensures above { Above blocks.now.rows.n gone.new }
    ensures firsts { Firsts (beats_of blocks.now) blocks.now.rows.n gone.new first.new }
{
    for i in 0..blocks.rows.n {
        if gone[i] == 0 {
            round(blocks, i, gone, first, codes);
        }
    }
}

// The round of row i: it meets the later rows that are not gone, until it is beaten.
fn round(
    blocks: &Blocks,
    i: usize,
    gone: &mut [u8; 1024],
    first: &mut [u16; 1024],
    codes: &mut [u8],
)
    requires row { i < blocks.now.rows.n }
    requires codes { 8192 ≤ length codes.old }
    requires rounds { Rounds (beats_of blocks.now) blocks.now.rows.n i gone.old }
    requires above { Above blocks.now.rows.n gone.old }
    requires firsts { Firsts (beats_of blocks.now) blocks.now.rows.n gone.old first.old }
    requires keyed { Keyed blocks.now.group blocks.now.rows.columns blocks.now.rows.cells.now blocks.now.rows.n blocks.now.keys.now }
    ensures rounds { Rounds (beats_of blocks.now) blocks.now.rows.n (i + 1) gone.new }
    ensures above { Above blocks.now.rows.n gone.new }
    ensures firsts { Firsts (beats_of blocks.now) blocks.now.rows.n gone.new first.new }
{
    for b in (i + 1) / 64..blocks.rows.n.div_ceil(64) {
        if meet_block(blocks, i, b, gone, first, codes) {
            gone[i] = 1;
            return;
        }
    }
}
