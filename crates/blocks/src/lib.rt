// A row against a block of 64 rows, in the engine by parts: which of them it meets, and the codes under each record beneath
// the asked term, from ranks or from the parts' codes.
#![tactic(auto)]

mod base;
mod by_record;
pub mod vetted;
