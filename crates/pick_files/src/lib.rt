// What `pick` reads and writes (SPECIFICATION, "The program pick"): its two files, and the text that `pick_text` makes
// of them.
#![tactic(auto)]

mod fail;
mod read_files;

use crate::fail::{fail, shown};
use crate::read_files::read_file;
use pick_text::MOST_TEXT;
use std::rt::Files;

// Prints the text for two files by their paths. Each buffer has room for one byte more than is taken, so that a longer
// file is refused: `first_bytes_decide` of `pick_text` says that no more need be read.
pub fn run(rt: &(impl Files + Print + Eprint), prefs: &[u8], rows: &[u8]) {
    let mut table = [0u8; 1537];
    let first = read_file(rt, prefs, &mut table);
    let mut bytes = [0u8; 32769];
    let second = read_file(rt, rows, &mut bytes);
    if first.is_none() && second.is_none() {
        say_missing(rt, prefs, rows);
    }
    let t = first.unwrap_or(0);
    let n = second.unwrap_or(0);
    let mut out = [0u8; MOST_TEXT];
    let r = pick_text::pick_text(&table[..t], &bytes[..n], &mut out);
    if let Err(error) = rt.write_all(&out[..r]) {
        fail(rt, "standard output", &error);
    }
}

// Says on standard error which files are looked for. Where both are missing, `pick` was likely started in the wrong
// folder.
fn say_missing(rt: &impl Eprint, prefs: &[u8], rows: &[u8]) {
    let table = shown(prefs);
    let rows = shown(rows);
    let _ = eprintln!(rt;
        "pick: no {table} (a table) and no {rows} (rows of eight columns) in this folder"
    );
}
