// Arithmetic on residues modulo p: numbers below p, for any p below 65,536.
#![tactic(auto)]

ghost use Rattle.std.specs.Prelude.{◌≡◌, ◌+◌, ◌-◌, ◌*◌, ◌/◌, ◌%◌, ◌<◌, ◌≤◌};
ghost use Rattle.residue.specs.Modulus.{Prime, modulus};

// The p of 01. No other function and no other definition mentions the number.
#[tactic(auto, unfolding(crate::specs::Modulus::modulus))]
pub fn modulus() -> u32
    ensures { result ≡ modulus }
{
    65521
}

// x modulo d.
fn remainder(x: u64, d: u32) -> u32
    requires { 0 < d }
    ensures { (result ≡ x % d) × (result < d) }
{
    (x % (d as u64)) as u32
}

// The residue of x. Where p is that of 01 the compiler knows the divisor, and multiplies instead of
// dividing.
pub fn reduce(x: u64, p: u32) -> u32
    requires { 0 < p }
    ensures { (result ≡ x % p) × (result < p) }
{
    let m = modulus();
    if p == m {
        return remainder(x, m);
    }
    remainder(x, p)
}

// The residue of a sum that is often 0.
pub fn reduce_sum(x: u64, p: u32) -> u32
    requires { 0 < p }
    ensures { (result ≡ x % p) × (result < p) }
{
    if x == 0 {
        return 0;
    }
    reduce(x, p)
}

// The residue of a 32-bit number for the p of 01: the compiler knows the divisor.
#[tactic(auto, unfolding(crate::specs::Modulus::modulus))]
pub fn reduce_word(x: u32) -> u32
    ensures { result ≡ x % modulus }
{
    x % modulus()
}

// x with the units of its upper half, 65,536 each, counted as k each.
fn folded(x: u32, k: u32) -> u32
    requires { k < 256 }
    ensures { (result ≡ x / 65536 * k + x % 65536) × (result ≤ 16776960) }
{
    x / 65536 * k + x % 65536
}

// The residue of x for a p just below 65,536, without a division. 65,536 is 65,536 - p modulo p, so
// two folds leave a number below 2 p. `% 256` changes nothing: it tells the compiler that k is small.
fn fold(x: u32, p: u32) -> u32
    requires { (65280 < p) × (p ≤ 65536) }
    ensures { (result ≡ x % p) × (result < p) }
{
    let k = (65536 - p) % 256;
    let y = folded(x, k);
    let z = folded(y, k);
    if z < p { z } else { z - p }
}

// The product modulo a p just below 65,536, for loops over many products. The compiler makes two loops
// of such a loop: for the p of 01 it knows the divisor, for another p the remainders, which change
// nothing, tell it that both factors have 16 bits.
pub fn multiply_near(a: u32, b: u32, p: u32) -> u32
    requires a_bound { a < 65536 }
    requires b_bound { b < 65536 }
    requires lt_p { (65280 < p) × (p ≤ 65536) }
    ensures { (result ≡ (a * b) % p) × (result < p) }
{
    if p == modulus() {
        return reduce_word(a * b);
    }
    fold(a % 65536 * (b % 65536), p)
}

// The sum of two residues. It is below 2 p, so one comparison reduces it.
pub fn add(a: u32, b: u32, p: u32) -> u32
    requires a_lt_p { a < p }
    requires b_lt_p { b < p }
    requires p_bound { p < 65536 }
    ensures { (result ≡ (a + b) % p) × (result < p) }
{
    let s = a + b;
    if s < p { s } else { s - p }
}

// a less b.
pub fn subtract(a: u32, b: u32, p: u32) -> u32
    requires a_lt_p { a < p }
    requires b_lt_p { b < p }
    requires p_bound { p < 65536 }
    ensures { (result ≡ (a + (p - 1) * b) % p) × (result < p) }
{
    if b <= a { a - b } else { a + p - b }
}

// Minus a.
pub fn negate(a: u32, p: u32) -> u32
    requires { a < p }
    ensures { (result ≡ ((p - 1) * a) % p) × (result < p) }
{
    if a == 0 { 0 } else { p - a }
}

// The product of two numbers below 65,536, not reduced.
pub fn wide_product(a: u32, b: u32) -> u64
    requires a_bound { a < 65536 }
    requires b_bound { b < 65536 }
    ensures { (result ≡ a * b) × (result < 4294967296) }
{
    (a as u64) * (b as u64)
}

// The product modulo p.
pub fn multiply(a: u32, b: u32, p: u32) -> u32
    requires a_bound { a < 65536 }
    requires b_bound { b < 65536 }
    requires p_nonzero { 0 < p }
    ensures { (result ≡ (a * b) % p) × (result < p) }
{
    reduce(wide_product(a, b), p)
}

// x + a b modulo p.
pub fn multiply_add(x: u32, a: u32, b: u32, p: u32) -> u32
    requires a_bound { a < 65536 }
    requires b_bound { b < 65536 }
    requires p_nonzero { 0 < p }
    ensures { (result ≡ (x + a * b) % p) × (result < p) }
{
    reduce((x as u64) + wide_product(a, b), p)
}

// The number below p whose product with a is 1. p % a is -(p / a) times a, so w times the a of the
// call stays the a of the loop, which falls to 1.
pub fn inverse(a: u32, p: u32) -> u32
    requires prime { Prime p }
    requires p_bound { p < 65536 }
    requires a_nonzero { 0 < a }
    requires a_lt_p { a < p }
    ensures { (result < p) × ((result * a) % p ≡ 1) }
{
    let mut rest = a;
    let mut w = 1;
    while rest != 1 {
        w = multiply(w, p - p / rest, p);
        rest = p % rest;
    }
    w
}
