// The rules of one record in two chains, 3 to 8 and 9 to 11 (SPECIFICATION, "What a call refuses"). The first takes what the
// check carries up to the record; the second asks that the first has passed.
ghost use Rattle.std.specs.Prelude.{◌≡◌, Ok};
ghost use Rattle.model.specs.Record.{nearest_term};
ghost use Rattle.table.specs.Judging.{judge_fields, judge_run, ValueFielded};

use crate::before::Before;
use crate::filler::fails_filler;
use crate::rules::{fails_column, fails_kind, fails_part, fails_reused, fails_stray};
use crate::runs::{fails_clash, fails_loop};
use model::{MOST_VALUES, Refusal, Verdict};

// 3 to 8.
#[tactic(auto, unfolding(crate::specs::Judging::judge_fields, model::specs::Replies::refusal, model::specs::Replies::numbered, model::specs::Replies::refusals))]
pub fn judge_fields(before: &Before, columns: u8) -> Verdict
    ensures { result ≡ judge_fields before.now.table.now columns before.now.k (Ok tt) }
{
    let k = before.k;
    if fails_kind(before.table, k) {
        return Err(Refusal::Kind(k));
    }
    if fails_filler(before.table, k, before.zero) {
        return Err(Refusal::Filler(k));
    }
    if fails_column(before.table, columns, k) {
        return Err(Refusal::Column(k));
    }
    if fails_part(before.table, k, before.terms) {
        return Err(Refusal::Part(k));
    }
    if fails_reused(before.table, k, before.used) {
        return Err(Refusal::Reused(k));
    }
    if fails_stray(before.table, k, before.near) {
        return Err(Refusal::Stray(k));
    }
    Ok(())
}

// 9 to 11, of a value of term `near`. LOOP looks at no more than 16 edges, since CROWD goes first.
pub fn judge_run(table: &[u8], columns: u8, k: u8, near: u8) -> Verdict
    requires { ValueFielded table.now columns k × (near ≡ nearest_term table.now k) }
    ensures { result ≡ judge_run table.now k (Ok tt) }
{
    if MOST_VALUES < (k - near) as usize {
        return Err(Refusal::Crowd(k));
    }
    if fails_clash(table, near, k) {
        return Err(Refusal::Clash(k));
    }
    if fails_loop(table, near, k) {
        return Err(Refusal::Loop(k));
    }
    Ok(())
}
