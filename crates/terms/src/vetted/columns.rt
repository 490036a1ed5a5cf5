// The columns that a term reads, as a mask with bit j for column j, and how many they are.
ghost use Rattle.std.specs.Prelude.{◌≡◌, ℕ, ◌<◌, false, get_or};
ghost use Rattle.model.specs.declared.Record.TheVariants.{Compound};
ghost use Rattle.model.specs.Search.{count_below};
ghost use Rattle.model.specs.Bytes.{bit};
ghost use Rattle.model.specs.Check.{fails_column};
ghost use Rattle.terms.specs.Columns.{unnumbered_at, mask_of, mask_below, Narrow};

use model::{CompoundTerm, Record};
use records::record::{kind_at, p_at, q_at, record_of};

// The masks of the records below m, one for every record number that a byte can hold.
pub fn masks(table: &[u8], m: u8) -> [u8; 256]
    requires { Narrow table.now m }
    ensures { (k : ℕ) → k < 256 → get_or result k 0 ≡ mask_below table.now m k }
{
    let mut a = [1u8; 256];
    for i in 0..m {
        a[i as usize] = mask_of(unnumbered(table, i), &a);
    }
    a
}

// Record i without its numbers, which have no say in its columns and are not read.
fn unnumbered(table: &[u8], i: u8) -> Record
    ensures { result ≡ unnumbered_at table.now i }
{
    record_of(kind_at(table, i), p_at(table, i), q_at(table, i), 0, 0)
}

fn mask_of(r: Record, a: &[u8; 256]) -> u8
    requires { fails_column 8 r ≡ false }
    ensures { result ≡ mask_of r (λ k. get_or a.now k 0) }
{
    match r {
        Record::Base(column, _) => 1 << column,
        Record::Compound(CompoundTerm::Joined(_, p, q)) => a[p as usize] | a[q as usize],
        Record::Compound(CompoundTerm::Dual(p)) => a[p as usize],
        Record::Value(_) | Record::Unknown => 1,
    }
}

// How many columns a mask has.
pub fn count_columns(mask: u8) -> u32
    ensures { result ≡ count_below 8 (bit mask) }
{
    u8::count_ones(mask)
}
