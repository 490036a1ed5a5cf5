// Two rows of a run, with what they are compared with.
ghost use Rattle.pairs.specs.Pairs.{RowOf};

use crate::vetted::pairs::Pairs;

// Row i and row j, each as its part of the run.
#[derive(Clone, Copy)]
pub struct Pair<'a> {
    pub of: &'a Pairs<'a>,
    pub i: usize,
    pub j: usize,
    pub first: &'a [i32],
    pub second: &'a [i32],
    pub ghost first_row: { RowOf of.now.rows.columns of.now.rows.cells.now of.now.rows.n i first.now },
    pub ghost second_row: { RowOf of.now.rows.columns of.now.rows.cells.now of.now.rows.n j second.now },
}
