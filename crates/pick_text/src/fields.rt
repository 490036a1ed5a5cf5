// A text that is put into a buffer, and what its lines are made of: bytes, a byte, a number, a place.
ghost use Rattle.std.specs.Prelude.{◌≡◌, ◌+◌, ◌%◌, ◌≤◌, ◌<◌, [], ◌∷◌, length};
ghost use Rattle.model.specs.Pick.{decimal, place_text};
ghost use Rattle.pick_text.specs.Printed.{Wrote};

// The buffer, and the place in it from which the text goes on. Each method moves that place on, and asks that the buffer has
// room.
#[derive(Drop)]
pub struct Text<'a> {
    pub out: &'a mut [u8],
    pub at: usize,
}

impl<'a> Text<'a> {
    // The place or `-`.
    pub fn put_place(&mut self, p: Option<u8>)
        requires { self.old.at + 4 ≤ length self.old.out.now }
        ensures { Wrote self.old (place_text p) 4 self.new }
    {
        match p {
            None => self.put_byte(b'-'),
            Some(k) => self.put_number(k as u32),
        }
    }

    // A number in decimal: the last four digits, where it has more.
    pub fn put_number(&mut self, n: u32)
        requires { self.old.at + 4 ≤ length self.old.out.now }
        ensures { Wrote self.old (decimal n) 4 self.new }
    {
        let digits = [digit(n / 1000), digit(n / 100), digit(n / 10), digit(n)];
        match n {
            0..10 => self.put(&digits[3..]),
            10..100 => self.put(&digits[2..]),
            100..1000 => self.put(&digits[1..]),
            _ => self.put(&digits),
        }
    }

    // All bytes of src.
    pub fn put(&mut self, src: &[u8])
        requires { self.old.at + length src.now ≤ length self.old.out.now }
        ensures { Wrote self.old src.now (length src.now) self.new }
    {
        let to = self.at + src.len();
        self.out[self.at..to].copy_from_slice(src);
        self.at = to;
    }

    // One byte.
    pub fn put_byte(&mut self, b: u8)
        requires { self.old.at < length self.old.out.now }
        ensures { Wrote self.old (b ∷ []) 1 self.new }
    {
        self.out[self.at] = b;
        self.at += 1;
    }
}

// The last digit of a number.
fn digit(n: u32) -> u8
    ensures { result ≡ 48 + n % 10 }
{
    b'0' + (n % 10) as u8
}
