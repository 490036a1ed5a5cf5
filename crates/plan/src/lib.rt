// What is prepared of the asked term once per query: which records a comparison goes through, and what each tells of the term.
#![tactic(auto)]

mod exit_parts;
pub mod vetted;
