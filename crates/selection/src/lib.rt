// What both engines are asked for a query that refuses nothing, what they promise, and the room that both get for ranks.
#![tactic(auto)]

pub mod vetted;
