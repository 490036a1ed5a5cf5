// Inner functions that other crates call. They are no public calls: each asks what was shown or prepared before.
pub mod pairs;
