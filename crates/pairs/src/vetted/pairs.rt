// Two rows of the run compared, if they are in one group; a row is handed to the comparison as a part of the run. `codes` has
// room for a code of each record.
ghost use Rattle.pairs.specs.Pairs.{Comparable};
ghost use Rattle.pairs.specs.OneProof.{comparable_props};

use crate::pair::Pair;
use plan::vetted::exit_masks::Exit;
use plan::vetted::ops::Step;
use rows::vetted::groups::in_group;
use rows::vetted::run::Rows;

// A term record of an accepted table with what is prepared of it, a group byte, and a run of rows with their ranks.
#[derive(Clone, Copy)]
pub struct Pairs<'a> {
    pub table: &'a [u8],
    pub ops: &'a [Step; 128],
    pub ends: &'a [u8; 128],
    pub reach: &'a [[bool; 32]],
    pub marks: &'a [bool; 128],
    pub exits: &'a [Exit; 128],
    pub term: u8,
    pub group: u8,
    pub rows: Rows<'a>,
    pub stride: usize,
    pub ranks: &'a [i32],
    pub ghost comparable: { Comparable table.now ops.now ends.now reach.now marks.now exits.now term rows.columns
        rows.cells.now rows.n stride ranks.now } by { Prim.hlevel comparable_props },
}

impl Pairs<'_> {
    ghost use Rattle.std.specs.Prelude.{◌≡◌, ◌<◌};
    ghost use Rattle.laws.specs.Codes.{code_of};
    ghost use Rattle.pairs.specs.GroupsPairs.{group_outcome};
    ghost use Rattle.pairs.specs.Better.{better};
    ghost use Rattle.model.specs.Term.{term_at};

    // Row j is in row i's set and better.
    pub fn beats(&self, j: usize, i: usize, codes: &mut [u8; 128]) -> bool
        requires first { j < self.now.rows.n }
        requires second { i < self.now.rows.n }
        ensures { result ≡ better self.now j i }
    {
        self.group_code(j, i, codes) == 1
    }

    // The code of row i against row j; unranked where they are in different groups.
    // Always inlined, since each meeting of two rows calls it.
    #[inline(always)]
    #[tactic(auto, using(crate::proofs::Parts::row_ends, crate::proofs::Parts::run_short))]
    pub fn group_code(&self, i: usize, j: usize, codes: &mut [u8; 128]) -> u8
        requires first { i < self.now.rows.n }
        requires second { j < self.now.rows.n }
        ensures { result ≡ code_of (group_outcome (term_at self.now.table.now self.now.term) self.now.rows.columns
            self.now.rows.cells.now self.now.group i j) }
    {
        let columns = self.rows.columns;
        let s = i * columns;
        let t = j * columns;
        let first = &self.rows.cells[s..s + columns];
        let second = &self.rows.cells[t..t + columns];
        if in_group(self.group, first, second) {
            let pair = Pair {
                of: self,
                i,
                j,
                first,
                second,
            };
            return pair.code(codes);
        }
        3
    }
}
