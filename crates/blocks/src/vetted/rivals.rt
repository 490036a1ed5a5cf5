// The rows of a block that a row meets: those that are not gone, in its group. `live` has 1 for a lane that is lit. `gone` has
// 0 for a row that is not gone.
ghost use Rattle.std.specs.Prelude.{◌≡◌, ◌*◌, ◌≤◌, ◌<◌, length};
ghost use Rattle.rows.specs.Keys.{Keyed};
ghost use Rattle.blocks.specs.Alive.{Alive, Above};
ghost use Rattle.blocks.specs.Rivals.{rival, LeftOut};

use crate::vetted::prepared::Blocks;

impl Blocks<'_> {
    // The rows of block b that row i meets: those that are not gone, in its group, without itself.
    #[tactic(auto, using(crate::proofs::RivalsLaws::rivals_alive))]
    pub fn rivals_alive(&self, i: usize, b: usize, gone: &[u8], live: &mut [u8])
        requires row { i < self.now.rows.n }
        requires block { b * 64 < self.now.rows.n }
        requires lanes { 64 ≤ length live.old }
        requires room { length gone.now ≡ 1024 }
        requires above { Above self.now.rows.n gone.now }
        requires keyed { Keyed self.now.group self.now.rows.columns self.now.rows.cells.now self.now.rows.n self.now.keys.now }
        ensures { Alive self.now.group self.now.rows.columns self.now.rows.cells.now self.now.rows.n
            i b (rival gone.now (b * 64) i) live.new }
    {
        self.free_alive(i, b, gone, live);
        leave_out(i, b, live);
    }
}

// Puts out row i's own lane, if it is in block b: where groups are many, it is often the only one.
#[tactic(auto, using(crate::proofs::RivalsLaws::left_own))]
fn leave_out(i: usize, b: usize, live: &mut [u8])
    requires { 64 ≤ length live.old }
    ensures { LeftOut (b * 64) i live.old live.new }
{
    if i / 64 == b {
        live[i % 64] = 0;
    }
}
