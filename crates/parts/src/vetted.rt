// The engine by parts: a wish's answers come from those of its parts. Ranks of every base record beneath the asked term once
// per query; then for a row and a block of 64 rows one code per row and record, compounds from their parts' codes; rows that
// are beaten are gone; then the kept rows name the rows that they beat.
use crate::block_entries::in_cells;
use selection::vetted::asked::Asked;
use selection::vetted::engine::Engine;

// Codes of a wish from those of its parts, for a block of 64 rows at a time.
pub struct Parts;

impl Engine for Parts {
    // Room for the cells of one block of 64 rows, of four, or of all 16.
    fn select(
        asked: &Asked,
        ends: &[u8; 128],
        reach: &[[bool; 32]],
        ranks: &mut [i32],
        answers: &mut [u16],
    ) -> u16 {
        if asked.rows.n <= 64 {
            return in_cells::<512>(asked, ends, reach, ranks, answers);
        }
        if asked.rows.n <= 256 {
            return in_cells::<2048>(asked, ends, reach, ranks, answers);
        }
        in_cells::<8192>(asked, ends, reach, ranks, answers)
    }
}
