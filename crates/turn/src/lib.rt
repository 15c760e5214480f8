// The pieces of one turn of the inversion of a map, on inputs that are checked.
#![tactic(auto)]

ghost use Rattle.std.specs.Prelude.{◌≡◌, ℕ, ◌+◌, ◌-◌, ◌*◌, ◌%◌, ◌<◌, ◌≤◌, length};
ghost use Rattle.linear.specs.Matrix.{element, at};
ghost use Rattle.series.specs.Image.{map_of};
ghost use Rattle.series.specs.Series.{IsSeries, IsMap};
ghost use Rattle.inversion.specs.Linear.{linear_part};
ghost use Rattle.turn.specs.Vectors.{dot, Gathered, Applied, Negated};
ghost use Rattle.turn.specs.Variables.{PositionOf, Started, LinearRow};

use counts::{Sizes, Table};
use series::write::clear;
use std::array;
use substitution::marks::{child, coefficient_in};

// Minus the row r.
fn negated_row(r: [u32; 8], p: u32) -> [u32; 8]
    requires { (j : ℕ) → j < 8 → at r j < p }
    ensures { (j : ℕ) → j < 8 → (at result j ≡ ((p - 1) * at r j) % p) × (at result j < p) }
{
    array::from_fn(|j| residue::negate(r[j], p))
}

// Minus the matrix m.
pub fn negated(m: [[u32; 8]; 8], p: u32) -> [[u32; 8]; 8]
    requires { (i j : ℕ) → i < 8 → j < 8 → element m i j < p }
    ensures { Negated p m result }
{
    let mut o = [[0; 8]; 8];
    for i in 0..8 {
        o[i] = negated_row(m[i], p);
    }
    o
}

// The sum of the products of the first v numbers of a and x. At most 8 products of 32 bits are
// added, so the sum is reduced only once.
fn dot(a: [u32; 8], x: [u32; 8], v: usize, p: u32) -> u32
    requires v_bound { (v ≤ 8) × (0 < p) × (p ≤ 65536) }
    requires by_index { (j : ℕ) → j < v → at a j < p }
    requires by_index_2 { (j : ℕ) → j < v → at x j < p }
    ensures { result ≡ dot v (at a) (at x) % p }
{
    let mut s: u64 = 0;
    // by index: both arrays are longer than v, so each would first be cut to it
    for j in 0..v {
        s += residue::wide_product(a[j], x[j]);
    }
    residue::reduce(s, p)
}

// The matrix m times the vector x.
pub fn applied(m: [[u32; 8]; 8], x: [u32; 8], v: usize, p: u32) -> [u32; 8]
    requires v_bound { (v ≤ 8) × (0 < p) × (p ≤ 65536) }
    requires by_index { (i j : ℕ) → i < 8 → j < 8 → element m i j < p }
    requires by_index_2 { (j : ℕ) → j < v → at x j < p }
    ensures { Applied p v m x result }
{
    let mut y = [0; 8];
    for i in 0..v {
        y[i] = dot(m[i], x, v, p);
    }
    y
}

// The vector at position q: word q of each part.
pub fn gather(parts: &[u32], z: Sizes, q: usize) -> [u32; 8]
    requires { (z.v ≤ 8) × (q ≤ z.count) × (z.count ≤ 8008) × (z.v * (z.count + 1) ≤ length parts.now) }
    ensures { Gathered z.count z.v q parts.now result }
{
    let mut x = [0; 8];
    for j in 0..z.v {
        x[j] = parts[j * (z.count + 1) + q];
    }
    x
}

// The position of variable j, from 0.
fn variable_position(t: Table, j: usize) -> usize
    requires j_lt_v { j < t.z.v }
    ensures { let z = t.entry.z in PositionOf z.n z.v z.count j result }
{
    child(t, 1, j)
}

// Makes the parts minus the identity map: p - 1 at the position of variable j in part j, and zeros.
pub fn start(res: &mut [u32], t: Table, p: u32)
    requires p_nonzero { (0 < p) × (t.z.v * (t.z.count + 1) ≤ length res.old) }
    ensures { let z = t.entry.z in Started p z.n z.v z.count res.old res.new }
{
    let r = t.z.count + 1;
    clear(res, 0, t.z.v * r);
    for j in 0..t.z.v {
        let q = variable_position(t, j);
        res[j * r + q] = p - 1;
    }
}

// The coefficients of the variables in a series: a row of a linear part.
fn linear_row(series: &[u32], t: Table, p: u32) -> [u32; 8]
    requires series { IsSeries p t.z.count series.now }
    requires p_nonzero { 0 < p }
    ensures { let z = t.entry.z in LinearRow p z.n z.v series.now result }
{
    let mut r = [0; 8];
    for j in 0..t.z.v {
        let place = variable_position(t, j);
        r[j] = coefficient_in(series, place);
    }
    r
}

// The linear part of a map.
pub fn linear_part(map: &[u32], t: Table, p: u32) -> [[u32; 8]; 8]
    requires map { IsMap p t.z.n t.z.v map.now }
    requires p_nonzero { 0 < p }
    ensures { let z = t.entry.z in result ≡ linear_part p z.v (map_of z.n z.v map.now) }
{
    let mut m = [[0; 8]; 8];
    let parts = map.chunks_exact(t.z.count + 1).take(t.z.v);
    for (i, part) in parts.enumerate() {
        m[i] = linear_row(part, t, p);
    }
    m
}
