// The ranks of one block's rows under a base term. The function asks what the calls of Query have shown before.
ghost use Rattle.std.specs.Prelude.{◌+◌, ◌*◌, ◌≤◌, length};
ghost use Rattle.rows.specs.Stretch.{Made};
ghost use Rattle.ranks.specs.Rank.{RankAt};

use crate::distance::{around_rank, between_rank, mirror_rank};
use crate::values::{one_role, places, two_roles};
use model::BaseTerm;
use rows::vetted::column::Column;
use terms::vetted::run::Run;

// Goes by the term's kind once, so that the loops over rows of the frequent kinds have no choice in them. POS: favourites 0,
// others 1. NEG: others 0, disliked 1. POS/NEG: favourites 0, others 1, disliked 2. POS/POS: favourites 0, second choices 1,
// others 2.
pub fn fill_stretch(run: &Run, b: BaseTerm, column: &Column, ranks: &mut [i32])
    requires within { column.now.b * 64 + length ranks.old ≤ column.now.rows.n }
    requires few { length ranks.old ≤ 64 }
    ensures { Made (RankAt run.now.of.table.now run.now.k run.now.e b) column.now.rows.columns
        column.now.rows.cells.now column.now.b column.now.c ranks.new }
{
    match b {
        BaseTerm::Lowest => column.fill(|x| x, ranks),
        BaseTerm::Highest => column.fill(mirror_rank, ranks),
        BaseTerm::Around(wish) => column.fill(|x| around_rank(wish, x), ranks),
        BaseTerm::Between(low, up) => column.fill(|x| between_rank(low, up, x), ranks),
        BaseTerm::Pos => one_role(run, 1, 1, 0, &column.cells(), ranks),
        BaseTerm::Neg => one_role(run, 0, 2, 1, &column.cells(), ranks),
        BaseTerm::PosNeg => two_roles(run, 1, 2, 2, &column.cells(), ranks),
        BaseTerm::PosPos => two_roles(run, 2, 3, 1, &column.cells(), ranks),
        BaseTerm::Explicit => places(run, &column.cells(), ranks),
        BaseTerm::Any => ranks.fill(0),
    }
}
