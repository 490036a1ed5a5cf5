// Inner functions that other crates call. They are no public calls: each asks what was shown or prepared before.
pub mod base;
pub mod compound;
pub mod equal;
pub mod known;
pub mod lit;
pub mod marks;
