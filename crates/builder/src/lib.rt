// The builder of the monomial table (01, 'The monomial table'), in the order of 002's prose: the
// monomials with C2 = 0 by order, then those with C2 = 1 and so on, position by position, and
// after them D1 and D2.
#![tactic(auto)]

ghost use Rattle.std.specs.Prelude.{◌≡◌, ◌++◌, ℕ, ◌+◌, ◌-◌, ◌^◌, ◌<◌, ◌≤◌, length, get_or, drop, replicate};
ghost use Rattle.monomial.specs.Count.{count, half, codes, words, Allowed};
ghost use Rattle.monomial.specs.Table.{D1, D2, table_words};
ghost use Rattle.builder.specs.Build.{C1s, CodesAt, Advances, filled, DigitSums, Prepared, order_start, Ends};

use counts::{Sizes, power, table_sizes};

// What the parts of the builder share: the sizes; how many codes of h - 1 digits there are, which are
// the rows of the first codes, and their digit sums; how many second codes there are. The sums are referred to: to
// copy them takes as long as building a small table.
#[derive(Clone, Copy)]
struct Codes<'a> {
    z: Sizes,
    rows: usize,
    seconds: usize,
    sums: &'a [u16],
    ghost prepared: { Prepared z.n z.v z.count rows sums.now },
    ghost lengths: { (z.codes ≡ codes z.n z.v) × (seconds ≡ (z.n + 1) ^ (z.v - half z.v)) },
}

// Writes the digit sums in base b of the codes below e: that of c = q * b + r is that of q plus r. Into the
// caller's array, since the compiler copies one that is answered.
fn digit_sums(ds: &mut [u16], b: usize, e: usize)
    requires { (2 ≤ b) × (1 ≤ e) × (e ≤ 1331) × (ds.old ≡ replicate 1331 0) }
    ensures { DigitSums b e ds.new }
{
    let mut q = 0;
    let mut r = 1;
    for c in 1..e {
        ds[c] = ds[q] + r as u16;
        r += 1;
        if r == b {
            q += 1;
            r = 0;
        }
    }
}

// Writes C1 and C2 of the position after the first `at`. Where they are its C1 and C2 and those
// before it are written, it is written too, and every other word keeps its value.
fn write_position(t: &mut [u16], total: usize, at: usize, first: u16, second: u16)
    requires { (at < total) × (total + total ≤ length t.old) }
    ensures { (n v : ℕ) → total ≡ count n v → CodesAt n v at first second
        → Advances n v at (at + 1) t.old t.new }
{
    t[at] = first;
    t[total + at] = second;
}

// Writes the monomials with C2 = 0 of order s, by ascending C1, after the first `from` positions;
// returns how many positions are then written. The codes go by rows: row x has x * (n + 1) up to
// x * (n + 1) + n, whose digit sums go up by one from that of x, so it has one code of order s, or
// none. x is q * (n + 1) + r: past a row that has none, no row has one until r is 0 again.
fn write_order(t: &mut [u16], k: &Codes, s: usize, from: usize) -> usize
    requires { let z = k.now.z in (z.count + z.count ≤ length t.old) × (s ≤ z.n) × (from ≡ order_start z.n z.v s) }
    ensures { let z = k.now.z in (result ≡ order_start z.n z.v (s + 1)) × Advances z.n z.v from result t.old t.new }
{
    let b = k.z.n + 1;
    let mut p = from;
    let mut x = 0;
    let mut q = 0;
    let mut r = 0;
    while x < k.rows {
        let d = k.sums[q] as usize + r;
        if d <= s {
            write_position(t, k.z.count, p, (x * b + (s - d)) as u16, 0);
            p += 1;
            x += 1;
            r += 1;
        } else {
            x += b - r;
            q += 1;
            r = 0;
        }
    }
    p
}

// Writes the monomials with C2 = 0, by order; returns how many there are up to each order, an array by order.
fn write_first_block(t: &mut [u16], k: &Codes) -> [usize; 11]
    requires { let z = k.now.z in z.count + z.count ≤ length t.old }
    ensures { let z = k.now.z in Ends z.n z.v (z.n + 1) result
        × Advances z.n z.v 0 (order_start z.n z.v (z.n + 1)) t.old t.new }
{
    let mut ends = [0usize; 11];
    let mut p = 0;
    for s in 0..k.z.n + 1 {
        p = write_order(t, k, s, p);
        ends[s] = p;
    }
    ends
}

// Writes m positions after the first `from`: C1 as at the positions 1 to m, and C2 = y.
fn write_block(t: &mut [u16], total: usize, from: usize, m: usize, y: u16)
    requires { (m ≤ from) × (from + m ≤ total) × (total + total ≤ length t.old) }
    ensures { (n v : ℕ) → total ≡ count n v
        → ((i : ℕ) → i < m → CodesAt n v (from + i) (get_or (C1s n v) i 0) y)
        → Advances n v from (from + m) t.old t.new }
{
    for i in 0..m {
        let x = t[i];
        write_position(t, total, from + i, x, y);
    }
}

// Writes the blocks of C2 = 1, C2 = 2 and so on. The block of C2 = y repeats the first C1 words: those
// of the orders up to n less the digit sum d of y. y is q * (n + 1) + r: past a code with d > n, no code
// has a block until r is 0 again.
fn write_blocks(t: &mut [u16], k: &Codes, ends: [usize; 11])
    requires { let z = k.now.z in (z.count + z.count ≤ length t.old) × Ends z.n z.v (z.n + 1) ends }
    ensures { let z = k.now.z in Advances z.n z.v (order_start z.n z.v (z.n + 1)) z.count t.old t.new }
{
    let n = k.z.n;
    let b = n + 1;
    let mut p = ends[n];
    let mut y = 1;
    let mut q = 0;
    let mut r = 1;
    while y < k.seconds {
        let d = k.sums[q] as usize + r;
        if d <= n {
            let m = ends[n - d];
            write_block(t, k.z.count, p, m, y as u16);
            p += m;
            y += 1;
            r += 1;
        } else {
            y += b - r;
            q += 1;
            r = 0;
        }
    }
}

// Writes 0 into the m words from word `at` on.
fn clear(t: &mut [u16], at: usize, m: usize)
    requires { at + m ≤ length t.old }
    ensures { t.new ≡ filled at (λ c. 0) m t.old }
{
    t[at..at + m].fill(0);
}

// Writes D1. Each C1 stands once at the first m positions, those with C2 = 0, and no other C1 stands
// anywhere.
fn write_d1(t: &mut [u16], z: Sizes, m: usize)
    requires { Allowed z.n z.v × (z.count ≡ count z.n z.v) × (z.codes ≡ codes z.n z.v)
        × (m ≡ order_start z.n z.v (z.n + 1)) × (z.count + z.count + z.codes ≤ length t.old)
        × ((i : ℕ) → i < m → get_or t.old i 0 ≡ get_or (C1s z.n z.v) i 0) }
    ensures { t.new ≡ filled (z.count + z.count) (D1 z.n z.v) (codes z.n z.v) t.old }
{
    let at = 2 * z.count;
    clear(t, at, z.codes);
    for i in 0..m {
        let x = t[i] as usize;
        t[at + x] = (i + 1) as u16;
    }
}

// Writes D2: for each C2 how many positions stand before its block. It goes through the codes as
// `write_blocks` does, and after it: while a position is written no word of D2 is touched.
fn write_d2(t: &mut [u16], k: &Codes, ends: [usize; 11])
    requires { let z = k.now.z in (z.count + z.count + z.codes + z.codes ≤ length t.old)
        × Ends z.n z.v (z.n + 1) ends }
    ensures { let z = k.now.z in t.new
        ≡ filled (z.count + z.count + z.codes) (D2 z.n z.v) (codes z.n z.v) t.old }
{
    let at = 2 * k.z.count + k.z.codes;
    clear(t, at, k.z.codes);
    let n = k.z.n;
    let b = n + 1;
    let mut start = 0;
    let mut y = 0;
    let mut q = 0;
    let mut r = 0;
    while y < k.seconds {
        let d = k.sums[q] as usize + r;
        if d <= n {
            t[at + y] = start as u16;
            start += ends[n - d];
            y += 1;
            r += 1;
        } else {
            y += b - r;
            q += 1;
            r = 0;
        }
    }
}

// Writes the table for n and v into t's first words (01, 'The monomial table'): position by position
// in ascending order, and then D1 and D2. The words beyond the table keep their values. A `Sizes` in place of n and v
// would ask N and E of the callers too.
pub fn build_table(t: &mut [u16], n: usize, v: usize)
    requires { Allowed n v × (words n v ≤ length t.old) }
    ensures { t.new ≡ table_words n v ++ drop (words n v) t.old }
{
    let z = table_sizes(n, v);
    let h = z.half();
    let rows = power(n + 1, h - 1);
    let mut sums = [0u16; 1331];
    digit_sums(&mut sums, n + 1, rows);
    let k = Codes {
        z,
        rows,
        seconds: power(n + 1, v - h),
        sums: &sums,
    };
    let ends = write_first_block(t, &k);
    write_blocks(t, &k, ends);
    write_d1(t, z, ends[n]);
    write_d2(t, &k, ends);
}
