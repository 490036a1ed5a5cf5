// Loops over lanes: the functions of `vetted` say by a closure what is done in each. A closure that has no branch, `&` and
// `|` in place of `&&` and `||`, is run on many lanes at once.
ghost use Rattle.std.specs.Prelude.{◌≡◌, true, false, ℕ, ◌<◌, length, get_or};

// Sets each lane from its number and what it had.
pub fn put<T: Copy, F: Fn(usize, T) -> T>(out: &mut [T], lane: F)
    requires { (j : ℕ) (x : T) → j < length out.old → F.pre lane j x }
    ensures { (j : ℕ) (z : T) → j < length out.old → F.post lane j (get_or out.old j z) (get_or out.new j z) }
{
    for (j, x) in out.iter_mut().enumerate() {
        *x = lane(j, *x);
    }
}

// Some lane of the 64. It goes on when one is found, so that many of them go at once.
pub fn some<F: Fn(usize) -> bool>(lane: F) -> bool
    requires { (j : ℕ) → j < 64 → F.pre lane j }
    ensures found { result ≡ true → (j : ℕ) × (j < 64) × F.post lane j true }
    ensures none { result ≡ false → (j : ℕ) → j < 64 → F.post lane j false }
{
    let mut some = false;
    for j in 0..64 {
        some |= lane(j);
    }
    some
}
