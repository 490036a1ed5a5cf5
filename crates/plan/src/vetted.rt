// Inner functions that other crates call. They are no public calls: each asks what was shown or prepared before.
pub mod beneath;
pub mod exit_masks;
pub mod exits;
pub mod ops;
