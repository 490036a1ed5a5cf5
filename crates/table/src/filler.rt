// 4 FILLER (SPECIFICATION, "What a call refuses"): each kind has its own list of fields that may be filled; every other
// field is zero.
ghost use Rattle.std.specs.Prelude.{◌≡◌, true, ◌<◌};
ghost use Rattle.model.specs.Check.{fails_filler};
ghost use Rattle.table.specs.Filler.{has_field, in_list, row_of, ZeroRows};

use model::{Kind, Role};
use records::record::{kind_at, p_at, q_at, s_at, u_at, v_at};

// The fields as bits. p is filled for every kind.
const Q: u8 = 2;

const S: u8 = 4;

const U: u8 = 8;

const V: u8 = 16;

// Which fields must be zero: a row for each kind of the list, and one more for a value in role 4, an edge, which fills v too.
const MUST_BE_ZERO: [u8; 16] = [
    Q + S + V, // 0 value
    Q + S + U + V, // 1 LOWEST
    Q + S + U + V, // 2 HIGHEST
    Q + S + V, // 3 AROUND
    Q + S, // 4 BETWEEN
    Q + S + U + V, // 5 POS
    Q + S + U + V, // 6 NEG
    Q + S + U + V, // 7 POS/NEG
    Q + S + U + V, // 8 POS/POS
    Q + S + U + V, // 9 EXPLICIT
    Q + S + U + V, // 10 ANY
    Q + S, // 0 value in role 4
    S + U + V, // 16 PARETO
    S + U + V, // 17 PRIOR
    S + U + V, // 18 BOTH
    Q + S + U + V, // 19 DUAL
];

// The table. The check lends it to the rule for all records, since a constant is laid out anew wherever it is read.
pub fn must_be_zero() -> [u8; 16]
    ensures { ZeroRows result }
{
    MUST_BE_ZERO
}

// Whether a field of record k that is not filled for its kind is not zero. A kind that is not in the list is KIND's.
pub fn fails_filler(table: &[u8], k: u8, zero: &[u8; 16]) -> bool
    requires { ZeroRows zero.now }
    ensures { result ≡ fails_filler table.now k }
{
    let kind = kind_at(table, k);
    if !in_list(kind) {
        return false;
    }
    let row = row_of(kind, p_at(table, k));
    let fields = zero[row];
    (has(fields, Q) & (q_at(table, k) != 0))
        | (has(fields, S) & (s_at(table, k) != 0))
        | (has(fields, U) & (u_at(table, k) != 0))
        | (has(fields, V) & (v_at(table, k) != 0))
}

// Whether the field is one of these.
#[tactic(auto, unfolding(crate::specs::Filler::has_field))]
fn has(fields: u8, field: u8) -> bool
    requires { 0 < field }
    ensures { result ≡ has_field fields field }
{
    fields / field % 2 == 1
}

// Whether there is such a kind.
fn in_list(kind: u8) -> bool
    ensures { result ≡ in_list kind }
{
    (kind < 11) | ((16 <= kind) & (kind < 20))
}

// The table's row for a kind and, of a value, its role.
fn row_of(kind: u8, role: u8) -> usize
    requires { in_list kind ≡ true }
    ensures { (result ≡ row_of kind role) × (result < 16) }
{
    if (kind == Kind::Value as u8) & (role == Role::Edge as u8) {
        return 11;
    }
    if kind < 11 {
        return kind as usize;
    }
    (kind - 4) as usize
}
