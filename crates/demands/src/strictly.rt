// What the third signed sentence says of Compare's replies, of the call itself (`theorems` says it of the definitions).
// Each function says whether the sentence holds of its arguments: whatever they are, what it returns is an equation with
// a definition over Compare's replies to them. That the sentence holds of every term record of an accepted table and rows
// of the count's length is the rest of its contract. Both are proved from the contract of `compare` alone.
ghost use Rattle.std.specs.Prelude.{◌≡◌, true, ◌<◌, length};
ghost use Rattle.model.specs.Record.{record_count, record_at, is_term};
ghost use Rattle.model.specs.Compare.{compare_reply};
ghost use Rattle.model.specs.Demand.{accepted};
ghost use Rattle.demands.specs.Given.{gives_same, gives_turned, gives_chained};

use crate::agreement::given::number_given;
use compare::compare;

// Compare of a row with itself gives same, and is not refused.
pub fn same_row(table: &[u8], columns: usize, term: usize, x: &[i32]) -> bool
    ensures { (result ≡ gives_same (compare_reply table.now columns term x.now x.now))
        × (accepted table.now columns ≡ true → term < record_count table.now
        → is_term (record_at table.now term) ≡ true → length x.now ≡ columns → result ≡ true) }
{
    number_given(compare(table, columns, term, x, x)) == 0
}

// First better and second better change places with the rows, same and unranked stay, and neither call is refused.
pub fn turned(table: &[u8], columns: usize, term: usize, x: &[i32], y: &[i32]) -> bool
    ensures { (result ≡ gives_turned (compare_reply table.now columns term x.now y.now)
        (compare_reply table.now columns term y.now x.now))
        × (accepted table.now columns ≡ true → term < record_count table.now
        → is_term (record_at table.now term) ≡ true → length x.now ≡ columns
        → length y.now ≡ columns → result ≡ true) }
{
    let there = number_given(compare(table, columns, term, x, y));
    let back = number_given(compare(table, columns, term, y, x));
    ((there == 0) & (back == 0))
        | ((there == 1) & (back == 2))
        | ((there == 2) & (back == 1))
        | ((there == 3) & (back == 3))
}

// First better of x, y and of y, z gives first better of x, z, and none of the three calls is refused.
pub fn chained(table: &[u8], columns: usize, term: usize, x: &[i32], y: &[i32], z: &[i32]) -> bool
    ensures { (result ≡ gives_chained (compare_reply table.now columns term x.now y.now)
        (compare_reply table.now columns term y.now z.now)
        (compare_reply table.now columns term x.now z.now))
        × (accepted table.now columns ≡ true → term < record_count table.now
        → is_term (record_at table.now term) ≡ true → length x.now ≡ columns
        → length y.now ≡ columns → length z.now ≡ columns → result ≡ true) }
{
    let a = number_given(compare(table, columns, term, x, y));
    let b = number_given(compare(table, columns, term, y, z));
    let c = number_given(compare(table, columns, term, x, z));
    (a < 4) & (b < 4) & (c < 4) & (!((a == 1) & (b == 1)) | (c == 1))
}
