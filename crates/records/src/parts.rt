// How records hang together: the parts of a compound, and which records are terms.
ghost use Rattle.std.specs.Prelude.{◌≡◌};
ghost use Rattle.model.specs.Record.{record_at, is_term, parts_of};
ghost use Rattle.records.specs.Parts.{parts_in};

use crate::record::{kind_at, p_at, q_at, record_of};
use model::{CompoundTerm, Record};

// The compound term that record k is, if it is one. The record's numbers have no say in it and are not read.
pub fn compound_at(table: &[u8], k: u8) -> Option<CompoundTerm>
    ensures { parts_in result ≡ parts_of (record_at table.now k) }
{
    compound(record_of(kind_at(table, k), p_at(table, k), q_at(table, k), 0, 0))
}

fn compound(r: Record) -> Option<CompoundTerm>
    ensures { parts_in result ≡ parts_of r }
{
    match r {
        Record::Compound(c) => Some(c),
        _ => None,
    }
}

// Whether record k is a term record, which its kind alone says.
pub fn is_term_at(table: &[u8], k: u8) -> bool
    ensures { result ≡ is_term (record_at table.now k) }
{
    is_term(record_of(kind_at(table, k), 0, 0, 0, 0))
}

fn is_term(r: Record) -> bool
    ensures { result ≡ is_term r }
{
    matches!(r, Record::Base(_, _) | Record::Compound(_))
}
