// What the records of a term say together: the columns it reads, its values and their classes, distances, what edges reach.
#![tactic(auto)]

pub mod codes;
pub mod distances;
pub mod vetted;
