// 13 APART (SPECIFICATION, "What a call refuses"), of a record that passed the rules before it.
ghost use Rattle.std.specs.Prelude.{◌≡◌};
ghost use Rattle.model.specs.Check.{fails_apart};
ghost use Rattle.table.specs.Judging.{Fielded};

use model::Kind;
use records::record::{kind_at, p_at, q_at};
use terms::vetted::columns::masks;

// 13 APART: BOTH of parts that read different columns.
pub fn fails_apart(table: &[u8], columns: u8, k: u8) -> bool
    requires { Fielded table.now columns k }
    ensures { result ≡ fails_apart table.now k }
{
    if kind_at(table, k) != Kind::Both as u8 {
        return false;
    }
    let a = masks(table, k);
    let p = p_at(table, k) as usize;
    let q = q_at(table, k) as usize;
    a[p] != a[q]
}
