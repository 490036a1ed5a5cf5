// The refusals of the specification, one function each: 1 to 8 and 12, save FILLER, which stands in `filler`. PART, REUSED and
// STRAY take what the check carries up to the record. What kind and p alone say is told without the record's numbers. CLASH
// and LOOP, which look at a term's earlier values, stand in `runs`; CROWD in `chains`, APART in `apart`, the order of all of
// them in `chains` and `judging`, and LOOSE in `verdict`.
ghost use Rattle.std.specs.Prelude.{◌≡◌};
ghost use Rattle.model.specs.Record.{record_at, nearest_term};
ghost use Rattle.model.specs.Check.{fails_width, fails_length, fails_kind, fails_column, fails_part, fails_reused, fails_stray, fails_bounds};
ghost use Rattle.table.specs.Carried.{TermsBelow, UsedBelow};

use model::{CompoundTerm, Kind, MOST_COLUMNS, MOST_TABLE_BYTES, RECORD_BYTES, Record};
use records::parts::compound_at;
use records::record::{kind_at, p_at, record_of, u_at, v_at};
use records::values::takes_role;

// 1 WIDTH: column count not 1 to 8.
#[tactic(auto, unfolding(model::specs::Check::fails_width))]
pub fn fails_width(columns: usize) -> bool
    ensures { result ≡ fails_width columns }
{
    !((1 <= columns) & (columns <= MOST_COLUMNS))
}

// 2 LENGTH: table bytes 0, over 1,536, or not a multiple of 12.
#[tactic(auto, unfolding(model::specs::Check::fails_length))]
pub fn fails_length(table: &[u8]) -> bool
    ensures { result ≡ fails_length table.now }
{
    let n = table.len();
    (n == 0) | (MOST_TABLE_BYTES < n) | (n % RECORD_BYTES != 0)
}

// 3 KIND: kind not in the list.
pub fn fails_kind(table: &[u8], k: u8) -> bool
    ensures { result ≡ fails_kind (record_at table.now k) }
{
    is_unknown(record_of(kind_at(table, k), 0, 0, 0, 0))
}

fn is_unknown(r: Record) -> bool
    ensures { result ≡ fails_kind r }
{
    matches!(r, Record::Unknown)
}

// 5 COLUMN: base term's column not below the count.
pub fn fails_column(table: &[u8], columns: u8, k: u8) -> bool
    ensures { result ≡ fails_column columns (record_at table.now k) }
{
    reads_past(
        columns,
        record_of(kind_at(table, k), p_at(table, k), 0, 0, 0),
    )
}

fn reads_past(columns: u8, r: Record) -> bool
    ensures { result ≡ fails_column columns r }
{
    match r {
        Record::Base(column, _) => !(column < columns),
        _ => false,
    }
}

// 6 PART: part not below the record's own number, or not a term. `terms` are the terms below it.
#[tactic(auto, unfolding(model::specs::Check::fails_part, model::specs::Search::any_in))]
pub fn fails_part(table: &[u8], k: u8, terms: &[bool; 256]) -> bool
    requires { TermsBelow table.now k terms.now }
    ensures { result ≡ fails_part table.now k }
{
    match compound_at(table, k) {
        Some(CompoundTerm::Joined(_, p, q)) => !terms[p as usize] | !terms[q as usize],
        Some(CompoundTerm::Dual(p)) => !terms[p as usize],
        None => false,
    }
}

// 7 REUSED: part already a part of an earlier term, or both parts the same. `used` are the parts of earlier terms.
#[tactic(auto, unfolding(model::specs::Check::fails_reused, model::specs::Check::twice, model::specs::Search::any_in))]
pub fn fails_reused(table: &[u8], k: u8, used: &[bool; 256]) -> bool
    requires { UsedBelow table.now k used.now }
    ensures { result ≡ fails_reused table.now k }
{
    match compound_at(table, k) {
        Some(CompoundTerm::Joined(_, p, q)) => used[p as usize] | used[q as usize] | (p == q),
        Some(CompoundTerm::Dual(p)) => used[p as usize],
        None => false,
    }
}

// 8 STRAY: value with no term before it, or role not taken there. `near` is the nearest term before it.
pub fn fails_stray(table: &[u8], k: u8, near: u8) -> bool
    requires { near ≡ nearest_term table.now k }
    ensures { result ≡ fails_stray table.now k }
{
    if kind_at(table, k) != Kind::Value as u8 {
        return false;
    }
    !takes_role(record_of(kind_at(table, near), 0, 0, 0, 0), p_at(table, k))
}

// 12 BOUNDS: BETWEEN with low above up.
pub fn fails_bounds(table: &[u8], k: u8) -> bool
    ensures { result ≡ fails_bounds table.now k }
{
    (kind_at(table, k) == Kind::Between as u8) & (v_at(table, k) < u_at(table, k))
}
