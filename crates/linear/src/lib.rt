// Determinants and inverses of linear parts modulo a prime p. A linear part is held as 01 says:
// eight rows of eight numbers, of which the first v rows and columns count, unused places zero.
#![tactic(auto)]

ghost use Rattle.std.specs.Prelude.{◌≡◌, ℕ, ◌<◌, ◌≤◌};
ghost use Rattle.linear.specs.Matrix.{element, unit, Held, at};
ghost use Rattle.linear.specs.Answer.{SmallPrime, Inverted};
ghost use Rattle.linear.specs.Elimination.{Below, Combined, Divided};
ghost use Rattle.linear.specs.Elimination.{FirstNonzero, Filed, Reduced, Table};

use std::array;

// A row, and how often each row of the matrix stands in it.
#[derive(Clone, Copy)]
struct Line {
    row: [u32; 8],
    coefficients: [u32; 8],
}

// r with g times s added.
fn combined(r: [u32; 8], s: [u32; 8], g: u32, p: u32) -> [u32; 8]
    requires small_prime { SmallPrime p }
    requires below { Below p s }
    requires g_le_p { g ≤ p }
    ensures { Combined p g r s result }
{
    array::from_fn(|x| residue::multiply_add(r[x], g, s[x], p))
}

// Row i of the identity matrix.
fn unit_row(i: usize) -> [u32; 8]
    requires { i < 8 }
    ensures { (x : ℕ) → x < 8 → at result x ≡ unit i x }
{
    let mut o = [0; 8];
    o[i] = 1;
    o
}

// The first place below v at which r is not 0.
fn first_nonzero(r: [u32; 8], v: usize) -> Option<usize>
    requires { v ≤ 8 }
    ensures { FirstNonzero r v result }
{
    r[..v].iter().position(|x| *x != 0)
}

// Row i of m with the rows of the table taken out of it, each by its own column.
fn reduced(m: [[u32; 8]; 8], t: [[u32; 8]; 8], k: [[u32; 8]; 8], i: usize, v: usize, p: u32) -> Line
    requires small_prime { SmallPrime p }
    requires v_bound { v ≤ 8 }
    requires i_lt_v { i < v }
    requires held { Held p v m }
    requires table { Table p v i m t k }
    ensures { Reduced p v i v m t result.row result.coefficients }
{
    let mut row = m[i];
    let mut coefficients = unit_row(i);
    for n in 0..v {
        let g = p - row[n];
        let r = combined(row, t[n], g, p);
        let s = combined(coefficients, k[n], g, p);
        row = r;
        coefficients = s;
    }
    Line { row, coefficients }
}

// The line divided by its number in column j.
fn divided(line: Line, j: usize, p: u32) -> Line
    requires small_prime { SmallPrime p }
    requires j_bound { j < 8 }
    requires j_nonzero { 0 < at line.row j }
    requires below { Below p line.row }
    requires below_2 { Below p line.coefficients }
    ensures { Divided p j line.row line.coefficients result.row result.coefficients }
{
    let w = residue::inverse(line.row[j], p);
    let row = combined([0; 8], line.row, w, p);
    let coefficients = combined([0; 8], line.coefficients, w, p);
    Line { row, coefficients }
}

// The rows t with s as row j, and with s taken out of the others by their numbers in column j of f.
fn filed(
    f: [[u32; 8]; 8],
    t: [[u32; 8]; 8],
    s: [u32; 8],
    j: usize,
    v: usize,
    p: u32,
) -> [[u32; 8]; 8]
    requires small_prime { SmallPrime p }
    requires v_bound { v ≤ 8 }
    requires j_lt_v { j < v }
    requires by_index { (c : ℕ) → c < v → element f c j < p }
    requires below { Below p s }
    ensures { Filed p v j f t s result }
{
    let mut o = t;
    for c in 0..v {
        o[c] = combined(t[c], s, p - f[c][j], p);
    }
    o[j] = s;
    o
}

// The inverse of m modulo p, or none where m is singular. Row by row: the rows of the table t are
// taken out of the row, and what is left is divided by its first number and filed at that number's
// column. k says how often each row of m stands in each row of t. Where nothing is left of a row,
// the rows up to it make 0 together, and m is singular.
pub fn invert(m: [[u32; 8]; 8], v: usize, p: u32) -> Option<[[u32; 8]; 8]>
    requires small_prime { SmallPrime p }
    requires v_bound { v ≤ 8 }
    requires held { Held p v m }
    ensures { Inverted p v m result }
{
    let mut t = [[0; 8]; 8];
    let mut k = [[0; 8]; 8];
    for i in 0..v {
        let line = reduced(m, t, k, i, v, p);
        let j = first_nonzero(line.row, v)?;
        let pivot = divided(line, j, p);
        let t2 = filed(t, t, pivot.row, j, v, p);
        let k2 = filed(t, k, pivot.coefficients, j, v, p);
        t = t2;
        k = k2;
    }
    Some(k)
}
