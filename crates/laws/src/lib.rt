// Theorems about the definitions of `model`, and laws that the code rests on. No code (specs/, proofs/); `theorems` states
// those that a reader should read.
#![tactic(auto)]
