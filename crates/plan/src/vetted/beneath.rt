// Which records a comparison goes through: those that tell of the asked term, their parts, and the parts of these. Each
// function asks what the calls of Query have shown before.
ghost use Rattle.std.specs.Prelude.{◌≡◌, ◌<◌};
ghost use Rattle.plan.specs.Beneath.{OfRecord, PartsLow, Marked, record_marked};

use crate::vetted::exit_masks::Exit;
use model::{CompoundTerm, Record};
use terms::vetted::run::Numbered;

// Marks the records that tell of the asked term by their masks, and all beneath them, downward from the term.
pub fn beneath(of: &Numbered, exits: &[Exit; 128], term: u8) -> [bool; 128]
    requires few { term < 128 }
    requires low { PartsLow of.now.table.now term }
    ensures { Marked of.now.table.now term exits.now result }
{
    // A loop over places, of which many go at once: `map` makes the marks one by one.
    let mut marks = [false; 128];
    for i in 0..128 {
        marks[i] = !exits[i].is_nothing();
    }
    for k in (0..term + 1).rev() {
        if marks[k as usize] {
            mark_parts(of.record(k), &mut marks);
        }
    }
    marks
}

// Marks the parts of a record.
fn mark_parts(r: Record, marks: &mut [bool; 128])
    requires within { OfRecord (λ p. p < 128) r }
    ensures { marks.new ≡ record_marked r marks.old }
{
    match r {
        Record::Compound(CompoundTerm::Joined(_, p, q)) => {
            marks[p as usize] = true;
            marks[q as usize] = true;
        }
        Record::Compound(CompoundTerm::Dual(p)) => marks[p as usize] = true,
        _ => {}
    }
}
