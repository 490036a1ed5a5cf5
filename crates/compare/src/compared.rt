// Two rows compared under a term of a table that the check has accepted: what its values are prepared for, then the loop.
ghost use Rattle.std.specs.Prelude.{◌≡◌};
ghost use Rattle.model.specs.Term.{term_at};
ghost use Rattle.model.specs.Compare.{outcome};
ghost use Rattle.compare.specs.Rows.{Asked};

use crate::outcomes::Comparison;
use model::Outcome;
use terms::vetted::prepared::{fill_closures, numbers, run_ends};
use terms::vetted::run::Numbered;

// The outcome, with what an accepted table's values are prepared for.
pub fn compared<'r>(table: &[u8], term: u8, first: &'r [i32], second: &'r [i32]) -> Outcome
    requires { Asked table.now term first.now second.now }
    ensures { result ≡ outcome (term_at table.now term) first.now second.now }
{
    let numbers = numbers(table);
    let ends = run_ends(table);
    let mut reach = [[false; 32]; 256];
    fill_closures(table, &ends, &mut reach);
    let of = Numbered {
        table,
        numbers: &numbers,
    };
    let rows = Comparison {
        of,
        ends: &ends,
        reach: &reach,
        term,
        first,
        second,
    };
    rows.outcome()
}
