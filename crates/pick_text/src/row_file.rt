// The rows of `rows.bin`: eight columns, 32 bytes each, numbers as u of a record.
ghost use Rattle.std.specs.Prelude.{◌≡◌, ◌+◌, ◌*◌, ◌≤◌, length};
ghost use Rattle.model.specs.Bytes.{word_at, signed, numbers};
ghost use Rattle.model.specs.Pick.{fails_file};

// Whether the file is refused: longer than 1,024 rows, or a part of a row at its end.
#[tactic(auto, unfolding(model::specs::Pick::fails_file))]
pub fn fails_file(rows: &[u8]) -> bool
    ensures { result ≡ fails_file rows.now }
{
    32768 < rows.len() || rows.len() % 32 != 0
}

// Fills the run with the first numbers of the bytes.
pub fn put_numbers(bytes: &[u8], run: &mut [i32])
    requires { 4 * length run.old ≤ length bytes.now }
    ensures { run.new ≡ numbers bytes.now (length run.old) }
{
    for (i, number) in run.iter_mut().enumerate() {
        *number = number_at(bytes, 4 * i);
    }
}

// The number in the four bytes from `at` on, low byte first.
#[tactic(auto, unfolding(model::specs::Bytes::word_at, model::specs::Bytes::byte_at))]
fn number_at(bytes: &[u8], at: usize) -> i32
    requires { at + 4 ≤ length bytes.now }
    ensures { result ≡ signed (word_at bytes.now at) }
{
    let word = u32::from_le_bytes([bytes[at], bytes[at + 1], bytes[at + 2], bytes[at + 3]]);
    word.cast_signed()
}
