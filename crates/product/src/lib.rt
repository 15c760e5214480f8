// The product core, on inputs that are checked.
#![tactic(auto)]

pub mod list;

ghost use Rattle.std.specs.Prelude.{◌≡◌, ℕ, ◌+◌, ◌-◌, ◌*◌, ◌/◌, ◌%◌, ◌<◌, ◌≤◌};
ghost use Rattle.std.specs.Prelude.{List, [], ◌∷◌, ◌++◌, length, get_or, take, drop, replicate};
ghost use Rattle.algebra.specs.Polynomial.{mul};
ghost use Rattle.series.specs.Image.{packed, image_of, image, polynomial, pair_count};
ghost use Rattle.series.specs.Over.{over};
ghost use Rattle.product.specs.Pairs.{sum_at};
ghost use Rattle.product.specs.Regions.{Listed, Added, EntryIn, RowsIn, source_entries};
ghost use Rattle.product.specs.Multiply.{MultiplyIn, Multiplied};
ghost use Rattle.product.specs.Core.{ProductIn};
ghost use Rattle.product.specs.Rows.{add_at, Rowed, RowIn, place_with, value_with, HeadIn};

use counts::{Sizes, Table};
use series::word::{coefficient, position};
use series::write::{clear, finish, put};

// The regions of the work slice of a product or a bracket, each by where it begins, in lengths of a series, that is
// in count + 1 words. The sums stand first, and take two. Here the first factor.
pub const FIRST: usize = 2;

// The second factor, listed, which takes two.
pub const LIST: usize = 3;

// The result.
pub const RESULT: usize = 5;

// The orders of the positions.
pub const ORDERS: usize = 6;

// The sum at place j.
#[tactic(auto, unfolding(crate::specs::Pairs::sum_at))]
pub fn sum_at(work: &[u32], j: usize) -> u64
    requires { 2 * j + 1 < length work.now }
    ensures { result ≡ sum_at work.now j }
{
    work[2 * j] as u64 + work[2 * j + 1] as u64 * 4294967296
}

// Adds x to the sum at place j. The compiler merges the two words into one 64-bit addition.
fn add_at(work: &mut [u32], j: usize, x: u32)
    requires j_in_bounds { 2 * j + 1 < length work.old }
    requires x_bound { sum_at work.old j + x < 18446744073709551616 }
    ensures { work.new ≡ add_at work.old j x }
{
    let s = sum_at(work, j) + x as u64;
    work[2 * j] = (s % 4294967296) as u32;
    work[2 * j + 1] = (s / 4294967296) as u32;
}

// Two codes in one word.
pub fn code_word(first: usize, second: usize) -> u32
    requires { (first < 65536) × (second < 65536) }
    ensures { result ≡ first + second * 65536 }
{
    first as u32 + second as u32 * 65536
}

// The first of the two codes in a word.
pub fn low(w: u32) -> usize
    ensures { (result ≡ w % 65536) × (result < 65536) }
{
    (w % 65536) as usize
}

// The second of the two codes in a word.
pub fn high(w: u32) -> usize
    ensures { (result ≡ w / 65536) × (result < 65536) }
{
    (w / 65536) as usize
}

// The sum of two words of the table.
pub fn spot(t: &[u16], i: usize, j: usize) -> usize
    requires { (i < length t.now) × (j < length t.now) }
    ensures { result ≡ get_or t.now i 0 + get_or t.now j 0 }
{
    t[i] as usize + t[j] as usize
}

// The product of two coefficients, which fits 32 bits unreduced.
fn times(a: u32, b: u32) -> u32
    requires { (a ≤ 65535) × (b ≤ 65535) }
    ensures { result ≡ a * b }
{
    a * b
}

// What a multiplication goes by: the order at which it is cut, the word of the work slice from which on the
// orders of the positions stand, the word from which on the second factor is listed, and how many of its entries
// have an order of at most each order.
#[derive(Clone, Copy)]
pub struct Factor<'a> {
    pub cut: usize,
    pub os: usize,
    pub cs: usize,
    pub ends: &'a [u32],
}

impl<'a> Factor<'a> {
    // The second factor of a product or a bracket, which is cut at order n.
    pub fn whole(z: Sizes, ends: &'a [u32]) -> Factor<'a>
        requires { z.count ≤ 43758 }
        ensures { (result.cut ≡ z.n) × (result.os ≡ 6 * (z.count + 1)) × (result.cs ≡ 3 * (z.count + 1))
            × (result.ends.now ≡ ends.now) }
    {
        let r = z.count + 1;
        Factor {
            cut: z.n,
            os: ORDERS * r,
            cs: LIST * r,
            ends,
        }
    }
}

// The first factor of a multiplication: m entries from word at + 1 of the work slice on.
#[derive(Clone, Copy)]
pub struct Source {
    pub at: usize,
    pub m: usize,
}

// A row of pairs: where the codes of its entry lead in the two address parts of the table, and how many
// listed entries go with it.
#[derive(Clone, Copy)]
pub struct RowHead {
    pub d1: usize,
    pub d2: usize,
    pub lim: usize,
}

// Adds, for each listed entry that goes with the row's, its product with c at the place that its codes lead
// to. The codes stand from word cs on, the coefficients r words further. Answers the number of pairs so far.
fn row(work: &mut [u32], t: &[u16], r: usize, h: RowHead, c: u32, cs: usize, pairs: u64) -> u64
    requires { RowIn t.now work.old r h.d1 h.d2 c cs (cs + r) h.lim pairs }
    ensures { (result ≡ pairs + h.lim) × Rowed r
        (place_with t.now work.old h.d1 h.d2 cs) (value_with work.old c (cs + r))
        h.lim work.old work.new }
{
    let co = cs + r;
    for k in 0..h.lim {
        let q = work[cs + k];
        let j = spot(t, h.d1 + low(q), h.d2 + high(q));
        let x = times(c, work[co + k]);
        add_at(work, j, x);
    }
    pairs + h.lim as u64
}

// The row of the entry x: the listed entries that go with x are those whose order, with that of x, is at most
// cut. It asks for bounds only: a `Table` would ask its callers for the words of the table of n and v too.
pub fn row_head(work: &[u32], t: &[u16], z: Sizes, f: Factor, x: u32) -> RowHead
    requires { HeadIn z.count z.codes f.cut f.os t.now work.now f.ends.now x }
    ensures { (result.d1 ≡ z.count + z.count + get_or t.now (x / 65536 - 1) 0)
        × (result.d2 ≡ z.count + z.count + z.codes + get_or t.now (z.count + (x / 65536 - 1)) 0)
        × (result.lim ≡ get_or f.entry.ends.now (f.entry.cut - get_or work.now (f.entry.os + x / 65536) 0) 0) }
{
    let q = position(x);
    let o = work[f.os + q] as usize;
    let first = t[q - 1] as usize;
    let second = t[z.count + (q - 1)] as usize;
    let lim = f.ends[f.cut - o] as usize;
    RowHead {
        d1: z.count + z.count + first,
        d2: z.count + z.count + z.codes + second,
        lim,
    }
}

// Adds the products of the entry x with each listed entry that goes with it. Answers the number of pairs so
// far.
fn entry_row(work: &mut [u32], t: Table, f: Factor, x: u32, pairs: u64) -> u64
    requires { let z = t.z in EntryIn z.n z.v z.count z.codes f.cut f.os f.cs
        t.words.now work.old f.ends.now x pairs }
    ensures { let z = t.entry.z in (ys : List ℕ) → Listed z.n z.v z.count ys f.entry.cs work.old f.entry.ends.now
        → Added z.n z.v z.count f.entry.cut (x ∷ []) ys work.old work.new pairs result }
{
    let h = row_head(work, t.words, t.z, f, x);
    row(work, t.words, t.z.count + 1, h, coefficient(x), f.cs, pairs)
}

// Adds the products of each entry of the source with the listed entries that go with it. Answers the number of
// pairs so far.
pub fn rows(work: &mut [u32], t: Table, f: Factor, s: Source, from: u64) -> u64
    requires { let z = t.z in RowsIn z.n z.v z.count z.codes f.cut f.os f.cs
        t.words.now work.old f.ends.now s.at s.m from }
    ensures { let z = t.entry.z in (ys : List ℕ) → Listed z.n z.v z.count ys f.entry.cs work.old f.entry.ends.now
        → Added z.n z.v z.count f.entry.cut (source_entries work.old s.at s.m) ys
        work.old work.new from result }
{
    let mut pairs = from;
    for i in 0..s.m {
        let x = work[s.at + 1 + i];
        pairs = entry_row(work, t, f, x, pairs);
    }
    pairs
}

// The sum at place j modulo p.
fn residue_at(work: &[u32], j: usize, p: u32) -> u32
    requires { (2 * j + 1 < length work.now) × (0 < p) }
    ensures { (result ≡ sum_at work.now j % p) × (result < p) }
{
    residue::reduce_sum(sum_at(work, j), p)
}

// Writes the image of the sums at places 1 to count, modulo p, at word at.
pub fn compress(work: &mut [u32], count: usize, at: usize, p: u32)
    requires { (2 * (count + 1) ≤ at) × (at + (count + 1) ≤ length work.old)
        × (count < 65536) × (0 < p) × (p ≤ 65536) }
    ensures { work.new ≡ over work.old at
        (image_of count (packed (λ j. sum_at work.old j % p) count)) }
{
    let mut i = at + 1;
    for j in 0..count {
        let q = j + 1;
        let c = residue_at(work, q, p);
        i = put(work, i, q, c);
    }
    finish(&mut work[at..at + count + 1], i - at, count);
}

// Multiplies the source by the listed entries, drops what is above order cut, and writes the image at word dst.
// Answers the number of pairs. Not compiled into its caller, whose values would take the registers of the loop over
// a row.
#[inline(never)]
pub fn multiply(work: &mut [u32], t: Table, f: Factor, s: Source, dst: usize, p: u32) -> u64
    requires { let z = t.z in MultiplyIn z.n z.v z.count z.codes f.cut f.os f.cs
        t.words.now work.old f.ends.now s.at s.m dst p }
    ensures { let z = t.entry.z in (ys : List ℕ) → Listed z.n z.v z.count ys f.entry.cs work.old f.entry.ends.now
        → Multiplied z.n z.v z.count f.entry.cut s.at s.m dst p ys work.old work.new result }
{
    clear(work, 0, 2 * (t.z.count + 1));
    let pairs = rows(work, t, f, s, 0);
    compress(work, t.z.count, dst, p);
    pairs
}

// Copies the first k words of a to word at. Not compiled into its callers, as `multiply`. By index: the library's
// `copy_from_slice` becomes a call of memmove, which the archive for C would then ask of the program that takes it.
#[inline(never)]
pub fn copy(work: &mut [u32], at: usize, a: &[u32], k: usize)
    requires { (at + k ≤ length work.old) × (k ≤ length a.now) }
    ensures { work.new ≡ over work.old at (take k a.now) }
{
    for i in 0..k {
        work[at + i] = a[i];
    }
}

// The product of the series a and b, cut at order n (002, 5), in result; the first `words` words of work are
// zero afterwards. Answers the number of pairs.
pub fn product(
    work: &mut [u32],
    t: Table,
    a: &[u32],
    b: &[u32],
    res: &mut [u32],
    words: usize,
    p: u32,
) -> u64
    requires { ProductIn t.z.n t.z.v t.z.count t.z.codes words p t.words.now a.now b.now res.old work.old }
    ensures value { let z = t.entry.z in result
        ≡ pair_count z.n (polynomial z.n z.v a.now) (polynomial z.n z.v b.now) }
    ensures res_after { let z = t.entry.z in res.new
        ≡ image p z.n z.v (mul (polynomial z.n z.v a.now) (polynomial z.n z.v b.now))
        ++ drop (z.count + 1) res.old }
    ensures work_after { work.new ≡ replicate words 0 ++ drop words work.old }
{
    let r = t.z.count + 1;
    list::fill_orders(work, t, FIRST * r, ORDERS * r);
    let ends = list::sort(work, t, b, ORDERS * r, LIST * r);
    copy(work, FIRST * r, a, r);
    let s = Source {
        at: FIRST * r,
        m: a[0] as usize,
    };
    let pairs = multiply(work, t, Factor::whole(t.z, &ends), s, RESULT * r, p);
    copy(res, 0, &work[RESULT * r..ORDERS * r], r);
    clear(work, 0, words);
    pairs
}
