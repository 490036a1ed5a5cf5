// The rank of every row under every base term, once per query, for both engines: the lower is better.
#![tactic(auto)]

mod distance;
mod stretches;
mod values;
pub mod vetted;
