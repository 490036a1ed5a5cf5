// The vocabulary of the specification: its limits, a table's records as they are decoded, and what the calls reply.
// What each of them means stands in specs/, in the order that specs/Lib.antt gives.
#![tactic(auto)]

pub mod cases;

// ---- limits

// A table is 1 to 128 records of 12 bytes.
pub const RECORD_BYTES: usize = 12;

pub const MOST_RECORDS: usize = 128;

pub const MOST_TABLE_BYTES: usize = 1536;

// A row has 1 to 8 columns; a query takes up to 1,024 rows.
pub const MOST_COLUMNS: usize = 8;

pub const MOST_ROWS: usize = 1024;

// A term has up to 16 values.
pub const MOST_VALUES: usize = 16;

// ---- records

// The kinds of records, with the numbers that stand for them in a table. A byte there may be any other number too.
#[derive(Clone, Copy, Debug, PartialEq, Eq)]
pub enum Kind {
    Value = 0,
    Lowest = 1,
    Highest = 2,
    Around = 3,
    Between = 4,
    Pos = 5,
    Neg = 6,
    PosNeg = 7,
    PosPos = 8,
    Explicit = 9,
    Any = 10,
    Pareto = 16,
    Prior = 17,
    Both = 18,
    Dual = 19,
}

// The roles of values, with their numbers. An edge has u worse, v better.
#[derive(Clone, Copy, Debug, PartialEq, Eq)]
pub enum Role {
    Favourite = 1,
    Disliked = 2,
    SecondChoice = 3,
    Edge = 4,
}

// A value of a term, with the number of its role.
#[derive(Clone, Copy, Debug, PartialEq, Eq)]
pub struct Value {
    pub role: u8,
    pub u: i32,
    pub v: i32,
}

// The base terms, with the numbers that stand in their own record: AROUND's wish, BETWEEN's low and up.
#[derive(Clone, Copy, Debug, PartialEq, Eq)]
pub enum BaseTerm {
    Lowest,
    Highest,
    Around(i32),
    Between(i32, i32),
    Pos,
    Neg,
    PosNeg,
    PosPos,
    Explicit,
    Any,
}

// How a compound of two parts joins them.
#[derive(Clone, Copy, Debug, PartialEq, Eq)]
pub enum Pair {
    Pareto,
    Prior,
    Both,
}

// The compound terms, with the record numbers of their parts: left and right, or the one part.
#[derive(Clone, Copy, Debug, PartialEq, Eq)]
pub enum CompoundTerm {
    Joined(Pair, u8, u8),
    Dual(u8),
}

// A record is a value, a base term (with its column) or a compound term. Unknown: its kind is not in the list.
#[derive(Clone, Copy, Debug, PartialEq, Eq)]
pub enum Record {
    Value(Value),
    Base(u8, BaseTerm),
    Compound(CompoundTerm),
    Unknown,
}

// ---- refusals

// What a call refuses, in the order of the specification's numbers, with the record where it gives a place.
#[derive(Clone, Copy, Debug, PartialEq, Eq)]
pub enum Refusal {
    Width,
    Length,
    Kind(u8),
    Filler(u8),
    Column(u8),
    Part(u8),
    Reused(u8),
    Stray(u8),
    Crowd(u8),
    Clash(u8),
    Loop(u8),
    Bounds(u8),
    Apart(u8),
    Loose(u8),
    Rows,
    Term,
    Group,
    Short,
}

// What the tests of a call come to: its first refusal, or none.
pub type Verdict = Result<(), Refusal>;

// ---- replies

// Number of records, top, the columns that the top reads (bit j for column j), and how many these are.
#[derive(Clone, Copy, Debug, PartialEq, Eq)]
pub struct Summary {
    pub records: u8,
    pub top: u8,
    pub columns: u8,
    pub count: u32,
}

pub type CheckReply = Result<Summary, Refusal>;

// How two rows compare: equal in the term's columns, the first better, the second better, or unranked; with the numbers
// that stand for them at the C interface.
#[derive(Clone, Copy, Debug, PartialEq, Eq)]
pub enum Outcome {
    Same = 0,
    First = 1,
    Second = 2,
    Unranked = 3,
}

pub type CompareReply = Result<Outcome, Refusal>;

// How many rows were kept.
pub type QueryReply = Result<u16, Refusal>;

// Whether a row is perfect, with its number at the C interface.
#[derive(Clone, Copy, Debug, PartialEq, Eq)]
pub enum Mark {
    No = 0,
    Yes = 1,
}

pub type PerfectReply = Result<Mark, Refusal>;
