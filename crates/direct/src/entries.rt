// Which rows are kept, and then the entries, from the list of kept rows. Each function asks what was prepared, and for room.
ghost use Rattle.std.specs.Prelude.{◌≤◌, length};
ghost use Rattle.rows.specs.Keys.{Keyed};
ghost use Rattle.selection.specs.Selected.{Selected};
ghost use Rattle.pairs.specs.Better.{better};
ghost use Rattle.direct.specs.Rooms.{Cleared};

use crate::kept_list::list_kept;
use crate::rounds::eliminate;
use crate::witnesses::write_answers;
use pairs::vetted::pairs::Pairs;
use rows::vetted::keys::fill_keys;

// Room for N rows. Never inlined: few rows need no frame for many.
#[inline(never)]
pub fn in_room<const N: usize>(pairs: &Pairs, answers: &mut [u16]) -> u16
    requires size { N ≤ 1024 }
    requires room { pairs.now.rows.n ≤ N }
    requires answers { pairs.now.rows.n ≤ length answers.old }
    ensures { Selected (better pairs.now) pairs.now.rows.n answers.old answers.new result }
{
    let mut keys = [0u8; N];
    let rows = pairs.rows;
    fill_keys(pairs.group, rows.columns, rows.cells, rows.n, &mut keys);
    let mut gone = [0u8; N];
    let mut by = [0u16; N];
    let mut kept = [0u16; N];
    settled(pairs, &keys, &mut gone, &mut by, &mut kept, answers)
}

// Which rows are gone, and by which; then the kept rows and the answers.
fn settled(
    pairs: &Pairs,
    keys: &[u8],
    gone: &mut [u8],
    by: &mut [u16],
    kept: &mut [u16],
    answers: &mut [u16],
) -> u16
    requires keys { pairs.now.rows.n ≤ length keys.now }
    requires keyed { Keyed pairs.now.group pairs.now.rows.columns pairs.now.rows.cells.now pairs.now.rows.n keys.now }
    requires cleared { Cleared pairs.now.rows.n gone.old (length by.old) (length kept.old) }
    requires answers { pairs.now.rows.n ≤ length answers.old }
    ensures { Selected (better pairs.now) pairs.now.rows.n answers.old answers.new result }
{
    // A copy, so that what is stored for one pair cannot change what the next is compared with.
    let pairs = *pairs;
    let mut codes = [0u8; 128];
    eliminate(&pairs, keys, gone, by, &mut codes);
    let m = list_kept(pairs.rows.n, gone, kept);
    write_answers(&pairs, gone, by, &kept[..m], &mut codes, answers);
    m as u16
}
