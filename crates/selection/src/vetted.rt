// Inner functions that other crates call. They are no public calls: each asks what was shown or prepared before.
pub mod asked;
pub mod engine;
pub mod rooms;
