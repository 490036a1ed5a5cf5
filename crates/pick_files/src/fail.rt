// A line on standard error. If it cannot be written, nothing more is said.
use arrayvec::ArrayString;
use std::fmt::Write;
use std::io;

// Says what failed, a colon, and the system's words for it.
pub fn fail(rt: &impl Eprint, what: &str, error: &io::Error) {
    let mut text = ArrayString::<128>::new();
    let _ = write!(text, "{error}");
    let words = words(text.as_str());
    let _ = eprintln!(rt; "{what}: {words}");
}

// The system's words, without the error's number in brackets, which std writes after them.
fn words(text: &str) -> &str {
    match text.split_once(" (os error ") {
        Some((words, _)) => words,
        None => text,
    }
}

// A path as a line names it.
pub fn shown(path: &[u8]) -> &str {
    str::from_utf8(path).unwrap_or("a path that is not text")
}
