// What asks something of its caller: a function that runs the cases of a program asks that the program can answer each.
pub mod input;
