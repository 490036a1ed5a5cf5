// The start of a file, read into a buffer.
ghost use Rattle.std.specs.Prelude.{◌≡◌, ◌≤◌, length, take, IfOk, IfSome};

use crate::fail::{fail, shown};
use std::io::{ErrorKind, Read};
use std::rt::Files;
use std::{fs, io};

// Reads the start of a file, as far as the buffer goes. Returns how many bytes, or `None` where the system calls the file
// missing. One that is there but cannot be read counts as empty, and a line on standard error names it.
pub fn read_file<R: Files + Eprint>(rt: &R, path: &[u8], buf: &mut [u8]) -> Option<usize>
    ensures within { IfSome result (λ n. n ≤ length buf.new) }
    ensures prefix { IfSome result (λ n. n ≡ length (take n buf.new)) }
{
    let read = match open_read(rt, path) {
        Ok(mut file) => read_open(&mut file, buf),
        Err(error) if error.kind() == ErrorKind::NotFound => return None,
        Err(error) => Err(error),
    };
    match read {
        Ok(n) => Some(n),
        Err(error) => {
            fail(rt, shown(path), &error);
            Some(0)
        }
    }
}

// Opens a file for reading. A path must be text for that.
fn open_read<R: Files>(rt: &R, path: &[u8]) -> io::Result<R::File> {
    match str::from_utf8(path) {
        Ok(text) => fs::open(rt, text),
        Err(_) => Err(io::Error::from(ErrorKind::InvalidFilename)),
    }
}

// Reads an open file until the buffer is full or the file ends. Returns how many bytes were read.
fn read_open<F: Read>(file: &mut F, buf: &mut [u8]) -> io::Result<usize>
    ensures within { IfOk result (λ n. n ≤ length buf.new) }
    ensures prefix { IfOk result (λ n. n ≡ length (take n buf.new)) }
{
    let mut n = 0;
    // As it is: no range gives the next place, since each read says how far it came.
    while n < buf.len() {
        let got = file.read(&mut buf[n..])?;
        if got == 0 {
            return Ok(n);
        }
        n += got;
    }
    Ok(n)
}
