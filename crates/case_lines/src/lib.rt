// What the programs that run cases share: reading a case from its line, and saying what a call answers.
// A line has the case's words; a head, which may name the call, with the call's numbers; where it names one, the rows, with
// a comma between two; and the records: kind, p, q, s, u, v, where fields left out at the end are 0. Colons stand between
// these, and a space before each name and number. u and v are 32-bit words: -1 is 4294967295.
#![tactic(auto)]

pub mod query_answers;
pub mod query_lines;
pub mod read;
pub mod say;
pub mod vetted;
