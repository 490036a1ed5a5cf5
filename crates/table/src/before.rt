// What the check carries from record to record, so that no rule looks for it again.
ghost use Rattle.table.specs.Carried.{Carried};
ghost use Rattle.table.specs.Filler.{ZeroRows};

// Record k with what is known before it: the nearest term, which records are terms and which are parts of one. FILLER's table
// is lent along.
#[derive(Clone, Copy)]
pub struct Before<'a> {
    pub table: &'a [u8],
    pub k: u8,
    pub near: u8,
    pub terms: &'a [bool; 256],
    pub used: &'a [bool; 256],
    pub zero: &'a [u8; 16],
    pub ghost carried: { Carried table.now k near terms.now used.now },
    pub ghost rows: { ZeroRows zero.now },
}
