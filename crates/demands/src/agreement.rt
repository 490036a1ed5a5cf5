// What the sentences ask of replies and answers, as tests: what Compare's reply gives, whether each dropped
// row's entry is its witness, and whether the rows that are left answer as before.
pub mod given;
pub mod left;
pub mod stays;
pub mod witnesses;
