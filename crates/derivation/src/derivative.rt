// Derivatives of series. Lowering an exponent keeps the order of the positions, so the entries go
// from the series to its derivative in one pass, and no work space is needed.
ghost use Rattle.std.specs.Prelude.{◌≡◌, ◌++◌, ℕ, ◌+◌, ◌*◌, ◌/◌, ◌%◌, ◌<◌, ◌≤◌, length, drop};
ghost use Rattle.algebra.specs.Polynomial.{scale, exponent, lower, derivative};
ghost use Rattle.monomial.specs.Table.{position_of};
ghost use Rattle.series.specs.Image.{coefficient, monomial_at, polynomial, image};
ghost use Rattle.series.specs.Over.{over};
ghost use Rattle.derivation.specs.Derivative.{reciprocal, Weighed, Located, DerivativeIn, derived_entry};

use counts::Table;
use series::word::{coefficient, position};
use series::write::{finish, put};

// Variable k, from 0, of the table t, and where its exponent stands there: the codes that hold it begin at word `at`,
// and it is their digit of the variable's weight, in the base n + 1. `first` and `second` are the codes of the
// variable itself: one of them is the weight, the other 0. A code is divided by the weight, and by the next weight,
// through their reciprocals, which takes no division.
#[derive(Clone, Copy)]
struct Variable<'a> {
    t: Table<'a>,
    k: usize,
    at: usize,
    first: usize,
    second: usize,
    base: u64,
    reciprocal: u64,
    next: u64,
    ghost located: { Located t.z.n t.z.v k at first second base reciprocal next },
}

// The reciprocal of d, rounded up.
fn reciprocal(d: usize) -> u64
    requires { 0 < d }
    ensures { (result ≡ reciprocal d) × (result ≤ 4294967297) }
{
    4294967296 / (d as u64) + 1
}

// The quotient of c by the number whose reciprocal is r.
fn quotient(c: u64, r: u64) -> u64
    requires c_bound { c < 65536 }
    requires r_bound { r ≤ 4294967297 }
    ensures { (d : ℕ) → 0 < d → d ≤ 65536 → r ≡ reciprocal d → result ≡ c / d }
{
    c * r / 4294967296
}

// The coefficient of the entry x times the exponent e times f, modulo p.
fn derived_value(x: u32, e: u64, f: u32, p: u32) -> u32
    requires { (e ≤ 10) × (f < 65536) × (0 < p) }
    ensures { (result ≡ coefficient x * e * f % p) × (result < p) }
{
    residue::reduce(coefficient(x) as u64 * e * f as u64, p)
}

impl<'a> Variable<'a> {
    // The variable with the codes `first` and `second`, of which one is its weight and the other 0.
    fn with_codes(t: Table<'a>, k: usize, at: usize, first: usize, second: usize) -> Variable<'a>
        requires { Weighed t.z.n t.z.v k at first second }
        ensures { (result.t.z ≡ t.entry.z) × (result.k ≡ k) }
    {
        let w = first + second;
        let b = t.z.n + 1;
        Variable {
            t,
            k,
            at,
            first,
            second,
            base: b as u64,
            reciprocal: reciprocal(w),
            next: reciprocal(w * b),
        }
    }

    // Variable k, from 0, of the table t. The halves differ in `at` too: the two codes alone would not spare the test.
    fn locate(t: Table<'a>, k: usize) -> Variable<'a>
        requires { k < t.z.v }
        ensures { (result.t.z ≡ t.entry.z) × (result.k ≡ k) }
    {
        let h = t.z.half();
        if k < h {
            return Variable::with_codes(t, k, 0, counts::power(t.z.n + 1, k), 0);
        }
        Variable::with_codes(t, k, t.z.count, 0, counts::power(t.z.n + 1, k - h))
    }

    // The exponent of the variable in the monomial at position q.
    fn exponent_at(self, q: usize) -> u64
        requires { (1 ≤ q) × (q ≤ self.t.z.count) }
        ensures { let s = self.entry in (result ≡ exponent s.k (monomial_at s.t.z.n s.t.z.v q)) × (result ≤ 10) }
    {
        let c = self.t.words[self.at + (q - 1)] as u64;
        quotient(c, self.reciprocal) - quotient(c, self.next) * self.base
    }

    // The position of the monomial at position q with the exponent of the variable made one less.
    fn lowered_at(self, q: usize) -> usize
        requires { (1 ≤ q) × (q ≤ self.t.z.count) × (0 < exponent self.k (monomial_at self.t.z.n self.t.z.v q)) }
        ensures { let s = self.entry in
            (result ≡ position_of s.t.z.n s.t.z.v (lower s.k (monomial_at s.t.z.n s.t.z.v q))) × (result < 65536) }
    {
        let (first, second) = self.t.codes_at(q);
        self.t.place(first - self.first, second - self.second)
    }

    // Writes at word j the entry that x gives to f times the derivative, and answers the next word.
    fn put_derived(self, x: u32, f: u32, out: &mut [u32], j: usize, p: u32) -> usize
        requires x_in { (1 ≤ x / 65536) × (x / 65536 ≤ self.t.z.count) }
        requires modulus { (f < p) × (p ≤ 65536) }
        requires room { j < length out.old }
        ensures { let s = self.entry in (result ≡ j + length (derived_entry s.t.z.n s.t.z.v s.k p f x))
            × (out.new ≡ over out.old j (derived_entry s.t.z.n s.t.z.v s.k p f x)) }
    {
        let q = position(x);
        let e = self.exponent_at(q);
        if e == 0 {
            return j;
        }
        let to = self.lowered_at(q);
        put(out, j, to, derived_value(x, e, f, p))
    }
}

// f times the derivative of the series a in variable k, from 0.
pub fn derivative(a: &[u32], t: Table, k: usize, f: u32, out: &mut [u32], p: u32)
    requires { DerivativeIn t.z.n t.z.v t.z.count t.z.codes k f p a.now t.words.now out.old }
    ensures { let z = t.entry.z in out.new
        ≡ image p z.n z.v (scale f (derivative k (polynomial z.n z.v a.now)))
        ++ drop (z.count + 1) out.old }
{
    let s = Variable::locate(t, k);
    let m = a[0] as usize;
    let mut j: usize = 1;
    for x in &a[1..m + 1] {
        j = s.put_derived(*x, f, out, j, p);
    }
    finish(out, j, t.z.count);
}
