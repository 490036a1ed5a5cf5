// The engine by parts: 64 rows at a time, from the answers of the smaller wishes. Below `vetted`, the top, stand what is
// prepared, the rounds in which rows meet, the naming of the rows that are gone, and the answers.
#![tactic(auto)]

mod block_entries;
mod block_names;
mod entries;
mod kept;
mod lowest_in_block;
mod lowest_kept;
mod meetings;
mod naming;
mod rounds;
mod row_names;
pub mod vetted;
