// Two rows of a run compared by their ranks, record by record, until the outcome is known; for the direct engine.
#![tactic(auto)]

mod by_record;
mod codes;
mod pair;
mod values;
pub mod vetted;
