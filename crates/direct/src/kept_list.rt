// The rows that are not gone, listed in order. The function asks for room. `gone` has 0 for a row that is not gone.
ghost use Rattle.std.specs.Prelude.{◌≡◌, ◌≤◌, eqb, length, get_or};
ghost use Rattle.model.specs.Search.{count_below};
ghost use Rattle.direct.specs.Kept.{Listed};

// Lists the rows that are not gone, in order. Returns how many there are.
pub fn list_kept(n: usize, gone: &[u8], kept: &mut [u16]) -> usize
    requires few { n ≤ 1024 }
    requires gone { n ≤ length gone.now }
    requires room { n ≤ length kept.old }
    ensures most { result ≤ n }
    ensures count { result ≡ count_below n (λ j. eqb (get_or gone.now j 0) 0) }
    ensures listed { Listed (λ j. eqb (get_or gone.now j 0) 0) n kept.new }
{
    let mut m = 0;
    for i in 0..n {
        if gone[i] == 0 {
            kept[m] = i as u16;
            m += 1;
        }
    }
    m
}
