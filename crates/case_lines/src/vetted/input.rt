// The cases on a program's standard input: bytes, in lines.
ghost use Rattle.std.specs.Prelude.{◌≡◌, ◌+◌, ◌<◌, ◌≤◌, length};
ghost use Rattle.std.specs.Io.{ReadsAtMost};

use std::io;
use std::io::Read;

// Runs the cases, of as much of the input as the buffer holds. Of each it says the words, which a colon ends, then what
// `answer` says of the rest of the line.
pub fn each_case<R: Print + Input, F: Fn(&[u8]) -> io::Result<()>>(
    rt: &R,
    buffer: &mut [u8],
    answer: F,
) -> io::Result<()>
    requires { F.IsAlwaysCallable answer }
{
    let n = read_full(&mut rt.reader(), buffer)?;
    let mut text = &buffer[..n];
    while !text.is_empty() {
        let (words, rest) = parted(text, b':');
        rt.write_all(words)?;
        print!(rt; ": ")?;
        let (line, others) = parted(rest, b'\n');
        answer(line)?;
        println!(rt)?;
        text = others;
    }
    Ok(())
}

// Reads until the buffer is full or the input ends. Returns how many bytes were read.
pub fn read_full<R: Read>(input: &mut R, buf: &mut [u8]) -> io::Result<usize>
    ensures { ReadsAtMost result buf.new }
{
    let mut n = 0;
    // As it is: no range gives the next place, since each read says how far it came. Pick reads its files by such a loop too:
    // one for both is no plainer, since that one says on standard error what failed.
    while n < buf.len() {
        let more = input.read(&mut buf[n..])?;
        if more == 0 {
            break;
        }
        n += more;
    }
    Ok(n)
}

// What stands before the first such byte, and what stands after it: all and nothing where there is none.
pub fn parted(text: &[u8], end: u8) -> (&[u8], &[u8])
    ensures within { length result.1.now ≤ length text.now }
    ensures shorter { 0 < length text.now → length result.1.now < length text.now }
{
    match text.iter().position(|b| *b == end) {
        Some(i) => (&text[..i], &text[i + 1..]),
        None => (text, &[]),
    }
}
