// What calls answer, in words on standard output. A write that fails ends what is said, with its error.
use model::Refusal;
use std::io;

// A refusal: its number, its word, and the record if it has a place.
pub fn refused(rt: &impl Print, why: Refusal) -> io::Result<()> {
    print!(rt; "refused {} {}", table::refusals::number(why), word(why))?;
    if let Some(record) = table::refusals::place(why) {
        print!(rt; " at {record}")?;
    }
    Ok(())
}

fn word(why: Refusal) -> &'static str {
    match why {
        Refusal::Width => "WIDTH",
        Refusal::Length => "LENGTH",
        Refusal::Kind(_) => "KIND",
        Refusal::Filler(_) => "FILLER",
        Refusal::Column(_) => "COLUMN",
        Refusal::Part(_) => "PART",
        Refusal::Reused(_) => "REUSED",
        Refusal::Stray(_) => "STRAY",
        Refusal::Crowd(_) => "CROWD",
        Refusal::Clash(_) => "CLASH",
        Refusal::Loop(_) => "LOOP",
        Refusal::Bounds(_) => "BOUNDS",
        Refusal::Apart(_) => "APART",
        Refusal::Loose(_) => "LOOSE",
        Refusal::Rows => "ROWS",
        Refusal::Term => "TERM",
        Refusal::Group => "GROUP",
        Refusal::Short => "SHORT",
    }
}
