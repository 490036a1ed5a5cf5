// Reachability by the edges of an EXPLICIT term (SPECIFICATION, "When a row is better"): an array of arrays over at
// most 32 edge ends.
ghost use Rattle.std.specs.Prelude.{◌≡◌, false, ◌&&◌, ◌||◌, ℕ, ◌<◌, get_or};
ghost use Rattle.terms.specs.Run.{Values};
ghost use Rattle.terms.specs.Closure.{end_word, cell_at, reaches_at, reached_at, cell_with, Closure};

use records::record::{u_word, v_word};

// Which ends of the edges after record j are reached from which, by the edges before record k.
pub fn closure(table: &[u8], j: u8, k: u8) -> [[bool; 32]; 32]
    requires { Values table.now j k }
    ensures { Closure table.now j k result }
{
    let x = ends(table, j);
    let mut g = [[false; 32]; 32];
    for i in j + 1..k {
        let e = 2 * ((i - j - 1) as usize);
        g = with_edge(&x, &g, e);
    }
    g
}

// The closure with one edge more, from end e to end e + 1.
fn with_edge(x: &[u32; 32], g: &[[bool; 32]; 32], e: usize) -> [[bool; 32]; 32]
    requires { e < 31 }
    ensures { (a b : ℕ) → a < 32 → b < 32 → cell_at result a b ≡ cell_with x.now g.now e a b }
{
    let to = reached(x, g, e + 1);
    let mut h = [[false; 32]; 32];
    for a in 0..32 {
        h[a] = row_with(x, g, &to, e, a);
    }
    h
}

// The ends that have the value of end f or are reached from it.
fn reached(x: &[u32; 32], g: &[[bool; 32]; 32], f: usize) -> [bool; 32]
    requires { f < 32 }
    ensures { (b : ℕ) → b < 32 → get_or result b false ≡ reached_at x.now g.now f b }
{
    let mut to = [false; 32];
    for b in 0..32 {
        to[b] = (x[b] == x[f]) | g[f][b];
    }
    to
}

// Row a of the closure, with the ends in `to` where end e has its value or is reached from it.
fn row_with(x: &[u32; 32], g: &[[bool; 32]; 32], to: &[bool; 32], e: usize, a: usize) -> [bool; 32]
    requires { (e < 32) × (a < 32) }
    ensures { (b : ℕ) → b < 32 → get_or result b false ≡ (cell_at g.now a b || reaches_at x.now g.now a e && get_or to.now b false) }
{
    let row = g[a];
    if (x[a] == x[e]) | g[a][e] {
        return either(&row, to);
    }
    row
}

fn either(p: &[bool; 32], q: &[bool; 32]) -> [bool; 32]
    ensures { (b : ℕ) → b < 32 → get_or result b false ≡ (get_or p.now b false || get_or q.now b false) }
{
    let mut row = [false; 32];
    for b in 0..32 {
        row[b] = p[b] | q[b];
    }
    row
}

// The ends of the edges after record j, as 32 bits each.
fn ends(table: &[u8], j: u8) -> [u32; 32]
    requires { j < 128 }
    ensures { (a : ℕ) → a < 32 → get_or result a 0 ≡ end_word table.now j a }
{
    let mut x = [0u32; 32];
    for a in 0..32 {
        x[a as usize] = end_word(table, j, a);
    }
    x
}

fn end_word(table: &[u8], j: u8, a: u8) -> u32
    requires { (j < 128) × (a < 32) }
    ensures { result ≡ end_word table.now j a }
{
    let i = j + 1 + a / 2;
    if a % 2 == 0 {
        u_word(table, i)
    } else {
        v_word(table, i)
    }
}
