// Whether two rows are in one group: equal in every column whose bit is set in the group byte. The function asks what the
// calls have shown before.
ghost use Rattle.std.specs.Prelude.{◌≡◌, ◌≤◌, length};
ghost use Rattle.model.specs.Better.{equal_in};

// Goes from set bit to set bit and ends at the first difference.
// As it is: the next column is that of the next set bit, which no range and no iterator gives.
pub fn in_group(group: u8, x: &[i32], y: &[i32]) -> bool
    requires same { length x.now ≡ length y.now }
    requires few { length x.now ≤ 8 }
    ensures { result ≡ equal_in group x.now y.now }
{
    let n = x.len();
    let mut left = group;
    let mut c = 0usize;
    while left != 0 {
        let unset = u8::trailing_zeros(left);
        let at = c + (unset as usize);
        if n <= at {
            return true;
        }
        if x[at] != y[at] {
            return false;
        }
        left = (left >> unset) / 2;
        c = at + 1;
    }
    true
}
