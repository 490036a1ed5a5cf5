// Loops over the 64 lanes of a block, for the engine by parts. A code is same 0, first better 1, second better 2, unranked 3.
// The 64 codes of a row and a wish are the wish's answer for that row, cut to the block: the lanes with 2 are the rows that
// are better (the report's "better than" set, Definition 17b), those with 1 the worse ones, and those with 0 the equal ones.
#![tactic(auto)]

mod each_lane;
pub mod vetted;
