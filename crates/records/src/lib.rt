// A table's records (SPECIFICATION, "The table"): their fields, what they stand for, and how they hang together. Past
// the table's end every byte reads as 0, so that each function takes any record number.
#![tactic(auto)]

pub mod parts;
pub mod record;
pub mod values;
