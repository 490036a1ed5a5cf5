// The rows of a run: their groups, the keys that tell groups apart, and their cells block by block.
#![tactic(auto)]

pub mod vetted;
