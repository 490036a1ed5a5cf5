// Which rows are kept, once all rounds are over.
ghost use Rattle.laws.specs.Elimination.{Settled};
ghost use Rattle.rows.specs.Keys.{Keyed};
ghost use Rattle.blocks.specs.Alive.{Above};
ghost use Rattle.parts.specs.Beats.{beats_of};

use blocks::vetted::prepared::Blocks;

// A query, with 0 in `gone` for each row that is kept. Lanes that are no rows are gone.
// As it is: `bool` is no plainer here, since lanes and blocks read and write 64 bytes of it at a time, with their own 0 and 1.
#[derive(Clone, Copy)]
pub struct Kept<'a> {
    pub of: Blocks<'a>,
    pub gone: &'a [u8; 1024],
    pub ghost settled: { Settled (beats_of of) of.rows.n gone.now },
    pub ghost above: { Above of.rows.n gone.now },
    pub ghost keyed: { Keyed of.group of.rows.columns of.rows.cells.now of.rows.n of.keys.now },
}
