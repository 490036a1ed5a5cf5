// What the engine by parts prepares once per query travels together.
ghost use Rattle.blocks.specs.Ready.{Ready};
ghost use Rattle.blocks.specs.Props.{prepared};

use plan::vetted::exit_masks::Exit;
use rows::vetted::run::Rows;
use terms::vetted::run::Numbered;

// A query by blocks of 64 rows: where the values of its terms end, what edges reach, which records stand beneath the asked
// term, with their masks, and the ranks, values and keys of its rows. A block takes `stride` of the ranks.
#[derive(Clone, Copy)]
pub struct Blocks<'a> {
    pub of: Numbered<'a>,
    pub ends: &'a [u8; 128],
    pub reach: &'a [[bool; 32]],
    pub marks: &'a [bool; 128],
    pub exits: &'a [Exit; 128],
    pub term: u8,
    pub group: u8,
    pub rows: Rows<'a>,
    pub stride: usize,
    pub ranks: &'a [i32],
    pub values: &'a [i32],
    pub keys: &'a [u8; 1024],
    pub ghost ready: { Ready of.table.now of.numbers.now ends.now reach.now marks.now exits.now term rows.columns rows.cells.now
        rows.n stride ranks.now values.now } by { Prim.hlevel prepared },
}
