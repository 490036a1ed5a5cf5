// The signed sentences (SPECIFICATION, "The promises"), and what is said of rows left out ("Leaving out rows"), of the calls
// themselves: by functions that call them and are proved from their contracts alone. The theorems about the definitions
// stand in the crate `theorems`.
#![tactic(auto)]

mod agreement;
pub mod catalogues;
pub mod engines;
pub mod leaving;
pub mod strictly;
