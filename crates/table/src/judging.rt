// One record judged for 3 to 13 in number order (SPECIFICATION, "What a call refuses"). It rests on the records before it,
// which the check has judged.
ghost use Rattle.std.specs.Prelude.{◌≡◌};
ghost use Rattle.model.specs.Check.{judge};
ghost use Rattle.table.specs.Judging.{judge_run, judge_shape, Reached, Fielded};

use crate::apart::fails_apart;
use crate::before::Before;
use crate::chains::{judge_fields, judge_run};
use crate::rules::fails_bounds;
use model::{Kind, Refusal, Verdict};
use records::record::kind_at;

// Record k, where every record below it passed, with what the check carries up to it.
pub fn judge_record(before: &Before, columns: u8) -> Verdict
    requires { Reached before.now.table.now columns before.now.k }
    ensures { result ≡ judge before.now.table.now columns before.now.k }
{
    judge_fields(before, columns)?;
    judge_rest(before, columns)
}

// 9 to 13: 9 to 11 are for values, 12 and 13 for others.
fn judge_rest(before: &Before, columns: u8) -> Verdict
    requires { Fielded before.now.table.now columns before.now.k }
    ensures { result ≡ judge_run before.now.table.now before.now.k (judge_shape before.now.table.now before.now.k) }
{
    let table = before.table;
    let k = before.k;
    if kind_at(table, k) == Kind::Value as u8 {
        return judge_run(table, columns, k, before.near);
    }
    if fails_bounds(table, k) {
        return Err(Refusal::Bounds(k));
    }
    if fails_apart(table, columns, k) {
        return Err(Refusal::Apart(k));
    }
    Ok(())
}
