// The refusals that look at the earlier values of a term (SPECIFICATION, "What a call refuses"), of value record k
// whose term is record j. Each function asks what the check has shown before.
ghost use Rattle.std.specs.Prelude.{◌≡◌, ◌≤◌, ◌<◌, ◌+◌};
ghost use Rattle.model.specs.Search.{any_in};
ghost use Rattle.model.specs.Check.{clash, closes_cycle};
ghost use Rattle.laws.specs.Runs.{values_between};
ghost use Rattle.records.specs.Fields.{value_at};
ghost use Rattle.terms.specs.Run.{Values};
ghost use Rattle.table.specs.Rules.{clash_in, goes_on, goes_back, on_and_back, loop_in};

use model::{Kind, Role};
use records::record::{kind_at, p_at, u_at, u_word, v_at, v_word};
use terms::vetted::closure::closure;

// 10 CLASH: POS/NEG or POS/POS value standing earlier in its term's run under the other role.
#[tactic(auto, unfolding(crate::specs::Rules::clash_in))]
pub fn fails_clash(table: &[u8], j: u8, k: u8) -> bool
    requires { Values table.now j k }
    ensures { result ≡ clash_in table.now j k }
{
    let kind = kind_at(table, j);
    if (kind == Kind::PosNeg as u8) | (kind == Kind::PosPos as u8) {
        return clashes(table, j, k);
    }
    false
}

// 11 LOOP: edge that closes a cycle with itself or earlier edges of its term.
#[tactic(auto, unfolding(crate::specs::Rules::loop_in))]
pub fn fails_loop(table: &[u8], j: u8, k: u8) -> bool
    requires { Values table.now j k × (k ≤ j + 16) × (k < 128) }
    ensures { result ≡ loop_in table.now j k }
{
    if p_at(table, k) != Role::Edge as u8 {
        return false;
    }
    closes_cycle(table, j, k)
}

// Whether one of the values between records j and k is that of record k under another role.
fn clashes(table: &[u8], j: u8, k: u8) -> bool
    requires { Values table.now j k }
    ensures { result ≡ any_in (values_between table.now j k) (clash (value_at table.now k)) }
{
    (j + 1..k).any(|i| clash_with(table, k, i))
}

fn clash_with(table: &[u8], k: u8, i: u8) -> bool
    ensures { result ≡ clash (value_at table.now k) (value_at table.now i) }
{
    (u_at(table, k) == u_at(table, i)) & (p_at(table, k) != p_at(table, i))
}

// Whether the edge in record k closes a cycle with itself or the edges between records j and k. The closure is looked at only
// where one of these begins at the edge's end and one ends at its beginning: no path leads from there to here else.
fn closes_cycle(table: &[u8], j: u8, k: u8) -> bool
    requires { Values table.now j k × (k ≤ j + 16) × (k < 128) }
    ensures { result ≡ closes_cycle (values_between table.now j k) (value_at table.now k) }
{
    if goes_on_and_back(table, j, k) {
        return closes_by_path(table, j, k);
    }
    u_word(table, k) == v_word(table, k)
}

// Whether one of the edges between records j and k begins where the edge in record k ends, and one ends where that begins.
fn goes_on_and_back(table: &[u8], j: u8, k: u8) -> bool
    requires { Values table.now j k }
    ensures { result ≡ on_and_back (values_between table.now j k) (value_at table.now k) }
{
    (j + 1..k).any(|i| goes_on(table, k, i)) && (j + 1..k).any(|i| goes_back(table, k, i))
}

// Whether edge i begins where edge k ends.
fn goes_on(table: &[u8], k: u8, i: u8) -> bool
    ensures { result ≡ goes_on (value_at table.now k) (value_at table.now i) }
{
    v_at(table, k) == u_at(table, i)
}

// Whether edge i ends where edge k begins.
fn goes_back(table: &[u8], k: u8, i: u8) -> bool
    ensures { result ≡ goes_back (value_at table.now k) (value_at table.now i) }
{
    u_at(table, k) == v_at(table, i)
}

// The same, by the closure of these edges.
fn closes_by_path(table: &[u8], j: u8, k: u8) -> bool
    requires { Values table.now j k × (k ≤ j + 16) × (k < 128) }
    ensures { result ≡ closes_cycle (values_between table.now j k) (value_at table.now k) }
{
    let g = closure(table, j, k);
    let e = 2 * ((k - j - 1) as usize);
    let f = e + 1;
    (u_word(table, k) == v_word(table, k)) | g[f][e]
}
