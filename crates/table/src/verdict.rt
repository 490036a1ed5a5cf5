// The table's own refusals in order (SPECIFICATION, "What a call refuses"): 1, 2, the records from 0 upward, 14; and
// what an accepted table is.
ghost use Rattle.std.specs.Prelude.{◌≡◌, ℕ};
ghost use Rattle.model.specs.Replies.{refusal};
ghost use Rattle.model.specs.Check.{refuse_if, each_below, table_verdict, summary};
ghost use Rattle.table.specs.Verdict.{loose_by, Counted, records_verdict, Summed};

use crate::before::Before;
use crate::filler::must_be_zero;
use crate::judging::judge_record;
use crate::rules::{fails_length, fails_width};
use model::{CompoundTerm, RECORD_BYTES, Refusal, Summary, Verdict};
use records::parts::{compound_at, is_term_at};
use records::values::nearest_term;
use terms::vetted::columns::{count_columns, masks};

// What Check refuses, of any bytes and any column count.
pub fn table_verdict(table: &[u8], columns: usize) -> Verdict
    ensures { result ≡ table_verdict table.now columns }
{
    if fails_width(columns) {
        return Err(Refusal::Width);
    }
    if fails_length(table) {
        return Err(Refusal::Length);
    }
    let n = (table.len() / RECORD_BYTES) as u8;
    judge_records(table, columns as u8, n)
}

// The first n records, from 0 upward, then 14. The nearest term, which records are terms and which are parts are carried
// along, so that no record is looked for again.
fn judge_records(table: &[u8], columns: u8, n: u8) -> Verdict
    requires { Counted table.now columns n }
    ensures { result ≡ records_verdict table.now columns n }
{
    let zero = must_be_zero();
    let mut terms = [false; 256];
    let mut used = [false; 256];
    let mut near = 0u8;
    for k in 0..n {
        judge_record(
            &Before {
                table,
                k,
                near,
                terms: &terms,
                used: &used,
                zero: &zero,
            },
            columns,
        )?;
        match compound_at(table, k) {
            Some(CompoundTerm::Joined(_, p, q)) => {
                used[p as usize] = true;
                used[q as usize] = true;
            }
            Some(CompoundTerm::Dual(p)) => used[p as usize] = true,
            None => {}
        }
        if is_term_at(table, k) {
            terms[k as usize] = true;
            near = k;
        }
    }
    judge_loose(&terms, &used, n, near)
}

// 14 LOOSE, the lowest such record.
fn judge_loose(terms: &[bool; 256], used: &[bool; 256], n: u8, near: u8) -> Verdict
    ensures { result ≡ each_below n (λ (k : ℕ). refuse_if (loose_by terms.now used.now near k) (refusal 14 k)) }
{
    for k in 0..n {
        let at = k as usize;
        if terms[at] & (k != near) & !used[at] {
            return Err(Refusal::Loose(k));
        }
    }
    Ok(())
}

// Number of records, top, columns read by the top and how many, of an accepted table.
pub fn summary_of(table: &[u8]) -> Summary
    requires { Summed table.now }
    ensures { result ≡ summary table.now }
{
    let records = (table.len() / RECORD_BYTES) as u8;
    let top = nearest_term(table, records);
    let a = masks(table, records);
    let at = top as usize;
    let columns = a[at];
    let count = count_columns(columns);
    Summary {
        records,
        top,
        columns,
        count,
    }
}
