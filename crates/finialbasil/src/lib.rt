// The C interface (bindings/c/finialbasil.h): one export for each public call, whose reply `c_replies` lays out. No export has
// a `requires`.
#![tactic(auto)]

mod c_replies;

ghost use Rattle.std.specs.Prelude.{◌≡◌};
ghost use Rattle.model.specs.Replies.{listed_check, listed_compare, listed_perfect, listed_query};
ghost use Rattle.model.specs.Check.{check_reply};
ghost use Rattle.model.specs.Compare.{compare_reply};
ghost use Rattle.model.specs.Perfect.{perfect_reply};
ghost use Rattle.model.specs.Query.{query_reply, query_buffer};
ghost use Rattle.finialbasil.specs.Layout.{check_fields, reply_fields};

use crate::c_replies::{FnbCheckReply, FnbReply, check_fields, reply_fields};

// Check: table and column count.
#[unsafe(no_mangle)]
pub extern "C" fn fnb_check(table: &[u8], columns: usize) -> FnbCheckReply
    ensures { result ≡ check_fields (listed_check (check_reply table.now columns)) }
{
    check_fields(table::check(table, columns))
}

// Compare: also a term's record number and two rows. Same 0, first better 1, second better 2, unranked 3.
#[unsafe(no_mangle)]
pub extern "C" fn fnb_compare(
    table: &[u8],
    columns: usize,
    term: usize,
    first: &[i32],
    second: &[i32],
) -> FnbReply
    ensures { result ≡ reply_fields (listed_compare (compare_reply table.now columns term first.now second.now)) }
{
    reply_fields(compare::compare(table, columns, term, first, second).map(|o| o as u32))
}

// Perfect: also a term's record number and one row. Not perfect 0, perfect 1.
#[unsafe(no_mangle)]
pub extern "C" fn fnb_perfect(table: &[u8], columns: usize, term: usize, row: &[i32]) -> FnbReply
    ensures { result ≡ reply_fields (listed_perfect (perfect_reply table.now columns term row.now)) }
{
    reply_fields(perfect::perfect(table, columns, term, row).map(|m| m as u32))
}

// Query, rows compared pair by pair: table, column count, rows, a term's record number, a group byte and the answer buffer,
// whose entries are written row by row. The value is how many rows were kept.
#[unsafe(no_mangle)]
pub extern "C" fn fnb_query_direct(
    table: &[u8],
    columns: usize,
    rows: &[i32],
    term: usize,
    group: u8,
    answers: &mut [u16],
) -> FnbReply
    ensures { (result ≡ reply_fields (listed_query
        (query_reply table.now columns rows.now term group answers.old)))
        × (answers.new ≡ query_buffer table.now columns rows.now term group answers.old) }
{
    reply_fields(query::query_direct(table, columns, rows, term, group, answers).map(u32::from))
}

// Query, from the answers of the smaller wishes: the same contract.
#[unsafe(no_mangle)]
pub extern "C" fn fnb_query_by_parts(
    table: &[u8],
    columns: usize,
    rows: &[i32],
    term: usize,
    group: u8,
    answers: &mut [u16],
) -> FnbReply
    ensures { (result ≡ reply_fields (listed_query
        (query_reply table.now columns rows.now term group answers.old)))
        × (answers.new ≡ query_buffer table.now columns rows.now term group answers.old) }
{
    reply_fields(query::query_by_parts(table, columns, rows, term, group, answers).map(u32::from))
}
