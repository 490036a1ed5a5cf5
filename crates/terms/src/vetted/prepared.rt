// What is prepared of an accepted table once, before rows are compared: its numbers, where each term's values end, and what
// the edges of each EXPLICIT term reach. Each function asks what the check has shown before.
ghost use Rattle.std.specs.Prelude.{◌≡◌, ℕ, ◌+◌, ◌*◌, ◌/◌, ◌<◌, ◌≤◌, cond, eqb, length};
ghost use Rattle.model.specs.Search.{any_below};
ghost use Rattle.model.specs.Record.{record_count, kind_at, record_at, is_term};
ghost use Rattle.terms.specs.Prepared.{number_at, Numbers, Vetted, RunEnds, RowsPut, Reached};

use crate::vetted::closure::closure;
use model::{Kind, MOST_RECORDS, RECORD_BYTES};
use records::parts::is_term_at;
use records::record::{kind_at, u_at, v_at};

// The numbers of all records: u of record k at 2 k, v at 2 k + 1. Past the table's end they are 0.
pub fn numbers(table: &[u8]) -> [i32; 256]
    ensures { Numbers table.now result }
{
    // Read are those of every record that has a byte, and 256 at most.
    let last = 2 * table.len().div_ceil(RECORD_BYTES).min(MOST_RECORDS);
    let mut a = [0i32; 256];
    for i in 0..last {
        a[i] = number_at(table, i);
    }
    a
}

fn number_at(table: &[u8], i: usize) -> i32
    requires { i < 256 }
    ensures { result ≡ number_at table.now i }
{
    let k = (i / 2) as u8;
    if i % 2 == 0 {
        return u_at(table, k);
    }
    v_at(table, k)
}

// Of every record the next term, and so of every term the record after its last value.
pub fn run_ends(table: &[u8]) -> [u8; 128]
    requires { Vetted table.now }
    ensures { RunEnds table.now result }
{
    let n = (table.len() / RECORD_BYTES) as u8;
    let mut ends = [0u8; 128];
    let mut next = n;
    for k in (0..n).rev() {
        ends[k as usize] = next;
        if is_term_at(table, k) {
            next = k;
        }
    }
    ends
}

// Whether a term has edges.
pub fn has_explicit(table: &[u8]) -> bool
    requires { Vetted table.now }
    ensures { result ≡ any_below (record_count table.now) (λ k. eqb (kind_at table.now k) 9) }
{
    let n = (table.len() / RECORD_BYTES) as u8;
    (0..n).any(|k| kind_at(table, k) == Kind::Explicit as u8)
}

// What each end of an edge reaches among the ends of its own term's edges: row 2 i for u of value record i, row 2 i + 1 for
// v, one cell for each end from the term's first one on.
pub fn fill_closures(table: &[u8], ends: &[u8; 128], reach: &mut [[bool; 32]; 256])
    requires { Vetted table.now × RunEnds table.now ends.now × (length reach.old ≡ 256) }
    ensures { Reached table.now ends.now reach.new × (length reach.new ≡ 256) }
{
    let n = (table.len() / RECORD_BYTES) as u8;
    for k in 0..n {
        if kind_at(table, k) == Kind::Explicit as u8 {
            let e = ends[k as usize];
            put_rows(reach, &closure(table, k, e), k, e);
        }
    }
}

// Copies the closure's rows for the edges from record k + 1 to before e.
fn put_rows(reach: &mut [[bool; 32]; 256], g: &[[bool; 32]; 32], k: u8, e: u8)
    requires { (k < e) × (e ≤ k + 17) × (e ≤ 128) × (length reach.old ≡ 256) }
    ensures { RowsPut g.now (2 * k + 2) (2 * e) reach.old reach.new }
{
    let start = 2 * (k as usize) + 2;
    let last = 2 * (e as usize);
    reach[start..last].copy_from_slice(&g[..last - start]);
}
