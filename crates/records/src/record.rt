// A table's records (SPECIFICATION, "The table"): their fields, and what they stand for. Past the table's end every
// byte reads as 0, so that each function takes any record number.
ghost use Rattle.std.specs.Prelude.{◌≡◌, ◌+◌, ◌*◌, ◌<◌, length};
ghost use Rattle.model.specs.Bytes.{byte_at, word_at, signed};
ghost use Rattle.model.specs.Record.{kind_at, p_at, q_at, s_at, u_at, v_at, record_of, record_at};
ghost use Rattle.records.specs.Fields.{u_word, v_word};

use model::{BaseTerm, CompoundTerm, Pair, RECORD_BYTES, Record, Value};

// Record k.
#[tactic(auto, unfolding(model::specs::Record::record_at))]
pub fn record_at(table: &[u8], k: u8) -> Record
    ensures { result ≡ record_at table.now k }
{
    record_of(
        kind_at(table, k),
        p_at(table, k),
        q_at(table, k),
        u_at(table, k),
        v_at(table, k),
    )
}

// The record of a kind with these fields.
#[tactic(auto, unfolding(model::specs::Record::record_of))]
pub fn record_of(kind: u8, p: u8, q: u8, u: i32, v: i32) -> Record
    ensures { result ≡ record_of kind p q u v }
{
    match kind {
        0 => Record::Value(Value { role: p, u, v }),
        1 => Record::Base(p, BaseTerm::Lowest),
        2 => Record::Base(p, BaseTerm::Highest),
        3 => Record::Base(p, BaseTerm::Around(u)),
        4 => Record::Base(p, BaseTerm::Between(u, v)),
        5 => Record::Base(p, BaseTerm::Pos),
        6 => Record::Base(p, BaseTerm::Neg),
        7 => Record::Base(p, BaseTerm::PosNeg),
        8 => Record::Base(p, BaseTerm::PosPos),
        9 => Record::Base(p, BaseTerm::Explicit),
        10 => Record::Base(p, BaseTerm::Any),
        16 => Record::Compound(CompoundTerm::Joined(Pair::Pareto, p, q)),
        17 => Record::Compound(CompoundTerm::Joined(Pair::Prior, p, q)),
        18 => Record::Compound(CompoundTerm::Joined(Pair::Both, p, q)),
        19 => Record::Compound(CompoundTerm::Dual(p)),
        _ => Record::Unknown,
    }
}

// The fields of record k.
#[tactic(auto, unfolding(model::specs::Record::kind_at))]
pub fn kind_at(table: &[u8], k: u8) -> u8
    ensures { result ≡ kind_at table.now k }
{
    byte_at(table, RECORD_BYTES * (k as usize))
}

#[tactic(auto, unfolding(model::specs::Record::p_at))]
pub fn p_at(table: &[u8], k: u8) -> u8
    ensures { result ≡ p_at table.now k }
{
    byte_at(table, RECORD_BYTES * (k as usize) + 1)
}

#[tactic(auto, unfolding(model::specs::Record::q_at))]
pub fn q_at(table: &[u8], k: u8) -> u8
    ensures { result ≡ q_at table.now k }
{
    byte_at(table, RECORD_BYTES * (k as usize) + 2)
}

#[tactic(auto, unfolding(model::specs::Record::s_at))]
pub fn s_at(table: &[u8], k: u8) -> u8
    ensures { result ≡ s_at table.now k }
{
    byte_at(table, RECORD_BYTES * (k as usize) + 3)
}

pub fn u_at(table: &[u8], k: u8) -> i32
    ensures { result ≡ u_at table.now k }
{
    u_word(table, k).cast_signed()
}

pub fn v_at(table: &[u8], k: u8) -> i32
    ensures { result ≡ v_at table.now k }
{
    v_word(table, k).cast_signed()
}

// u and v as their 32 bits.
pub fn u_word(table: &[u8], k: u8) -> u32
    ensures { result ≡ u_word table.now k }
{
    word_at(table, RECORD_BYTES * (k as usize) + 4)
}

pub fn v_word(table: &[u8], k: u8) -> u32
    ensures { result ≡ v_word table.now k }
{
    word_at(table, RECORD_BYTES * (k as usize) + 8)
}

// The four bytes from `at` on, low byte first. Where all are there, they are read at once.
#[tactic(auto, unfolding(model::specs::Bytes::word_at, model::specs::Bytes::byte_at))]
fn word_at(bytes: &[u8], at: usize) -> u32
    requires { at < 65536 }
    ensures { result ≡ word_at bytes.now at }
{
    if at + 3 < bytes.len() {
        return u32::from_le_bytes([bytes[at], bytes[at + 1], bytes[at + 2], bytes[at + 3]]);
    }
    u32::from_le_bytes([
        byte_at(bytes, at),
        byte_at(bytes, at + 1),
        byte_at(bytes, at + 2),
        byte_at(bytes, at + 3),
    ])
}

// Byte number `at`.
#[tactic(auto, unfolding(model::specs::Bytes::byte_at))]
fn byte_at(bytes: &[u8], at: usize) -> u8
    ensures { result ≡ byte_at bytes.now at }
{
    bytes.get(at).copied().unwrap_or(0)
}
