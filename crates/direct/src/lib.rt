// The direct engine: rows compared pair by pair. Below `vetted`, the top, stand what it prepares, the rounds in which rows
// meet, and the answers.
#![tactic(auto)]

mod entries;
mod entry;
mod kept_list;
mod meetings;
mod rounds;
#[cfg(test)]
mod tests;
pub mod vetted;
mod witnesses;
