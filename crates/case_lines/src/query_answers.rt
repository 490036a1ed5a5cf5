// What Query answers, in words: a reply and a buffer. Eight or more entries that are the same are said as `8*7777`, eight or
// more that rise by one as `0..7`.
ghost use Rattle.std.specs.Prelude.{◌<◌, ◌≤◌, length, IfOk};

use crate::say;
use model::QueryReply;
use std::io;

// What every entry of a buffer holds before a call.
const UNTOUCHED: u16 = 7777;

// The engine that a query goes by.
#[derive(Clone, Copy)]
pub enum Engine {
    Direct,
    Parts,
}

// What a call gave: its reply, and what stands in the buffer after it.
#[derive(Clone, Copy, PartialEq, Eq)]
pub struct Given<'a> {
    pub reply: QueryReply,
    pub buffer: &'a [u16],
}

pub fn clear(buffer: &mut [u16]) {
    buffer.fill(UNTOUCHED);
}

// Whether the answer of that engine for that group is another one. Says both if so, and the group, which may be any number.
pub fn apart(
    rt: &impl Print,
    known: Given,
    group: u64,
    engine: Engine,
    given: Given,
) -> io::Result<bool> {
    if known == given {
        return Ok(false);
    }
    answer(rt, known)?;
    let by = match engine {
        Engine::Direct => "directly",
        Engine::Parts => "by parts",
    };
    print!(rt; ", APART in group {group} {by} ")?;
    answer(rt, given)?;
    Ok(true)
}

pub fn answer(rt: &impl Print, given: Given) -> io::Result<()> {
    match given.reply {
        Ok(n) => print!(rt; "kept {n}")?,
        Err(why) => say::refused(rt, why)?,
    }
    if !given.buffer.is_empty() {
        print!(rt; ":")?;
    }
    entries(rt, given.buffer)
}

fn entries(rt: &impl Print, buffer: &[u16]) -> io::Result<()> {
    let mut rest = buffer;
    while !rest.is_empty() {
        rest = run(rt, rest)?;
    }
    Ok(())
}

// Says the run of entries that comes first. Returns those after it.
fn run<'a>(rt: &impl Print, entries: &'a [u16]) -> io::Result<&'a [u16]>
    requires { 0 < length entries.now }
    ensures { IfOk result (λ rest. length rest.now < length entries.now) }
{
    let first = entries[0];
    let alike = growing(entries, 0);
    if alike >= 8 {
        print!(rt; " {alike}*{first}")?;
        return Ok(&entries[alike..]);
    }
    let rising = growing(entries, 1);
    if rising >= 8 {
        print!(rt; " {first}..{}", entries[rising - 1])?;
        return Ok(&entries[rising..]);
    }
    print!(rt; " {first}")?;
    Ok(&entries[1..])
}

// How many of the entries, from the first on, grow by `step` each.
fn growing(entries: &[u16], step: u16) -> usize
    ensures { result ≤ length entries.now }
{
    let mut pairs = entries.iter().zip(entries.iter().skip(1));
    match pairs.position(|(a, b)| *a as u32 + step as u32 != *b as u32) {
        Some(i) => i + 1,
        None => entries.len(),
    }
}
