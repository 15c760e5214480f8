// Marks of the monomials that are beginnings of stored monomials, which say the least order of these,
// and the steps along the tree of beginnings, from a position to that of the monomial one letter
// longer or shorter.
ghost use Rattle.std.specs.Prelude.{◌≡◌, ℕ, ◌+◌, ◌*◌, ◌/◌, ◌^◌, ◌<◌, ◌≤◌, length, get_or};
ghost use Rattle.algebra.specs.Polynomial.{Polynomial, ◌⊕◌, order};
ghost use Rattle.algebra.specs.Substitution.{unit_of};
ghost use Rattle.monomial.specs.Table.{position_of};
ghost use Rattle.series.specs.Image.{entries, coefficient_at, monomial_at};
ghost use Rattle.product.specs.List.{Checked};
ghost use Rattle.substitution.specs.Walk.{shorter};
ghost use Rattle.substitution.specs.Marks.{
  Lowered,
  Outer,
  outer_terms,
  OrdersAt,
  Marks,
  Climbs,
  MarksSeries,
  Marked,
  AscendingEntries,
  FirstWord,
};

use counts::Table;
use series::word::{coefficient, position};
use series::write::clear;

// The columns of the work slice that go by position: from word `orders` on the orders of the monomials, from word
// `marks` on the marks of the beginnings, in whose upper halves the positions are listed by order.
#[derive(Clone, Copy)]
pub struct Columns {
    pub orders: usize,
    pub marks: usize,
}

// c less the largest power of b that is at most c: the code of exponents without their last letter.
fn lowered(c: usize, b: usize) -> usize
    requires { (1 ≤ c) × (c < b ^ 4) × (1 ≤ b) × (b ≤ 11) }
    ensures { Lowered b c result }
{
    if c < b {
        return c - 1;
    }
    let second = b * b;
    if c < second {
        return c - b;
    }
    let third = second * b;
    if c < third {
        return c - second;
    }
    c - third
}

// The position of the beginning one letter shorter of the monomial at position q.
fn shorter(t: Table, q: usize) -> usize
    requires le_q { (2 ≤ q) × (q ≤ t.z.count) }
    ensures { let z = t.entry.z in result ≡ position_of z.n z.v (shorter (monomial_at z.n z.v q)) }
{
    let (first, second) = t.codes_at(q);
    if second == 0 {
        return t.place(lowered(first, t.z.n + 1), second);
    }
    t.place(first, lowered(second, t.z.n + 1))
}

// The position of the monomial at position q times variable k, from 0, where the order allows it.
// Each half adds to its own code: both codes of variable k at once, one of them 0, would add twice at each step.
pub fn child(t: Table, q: usize, k: usize) -> usize
    requires le_q { (1 ≤ q) × (q ≤ t.z.count) × (k < t.z.v) × (order (monomial_at t.z.n t.z.v q) < t.z.n) }
    ensures { let z = t.entry.z in result ≡ position_of z.n z.v (monomial_at z.n z.v q ⊕ unit_of k) }
{
    let (first, second) = t.codes_at(q);
    let half = t.z.half();
    if k < half {
        return t.place(first + counts::power(t.z.n + 1, k), second);
    }
    t.place(first, second + counts::power(t.z.n + 1, k - half))
}

// Marks the monomial of the entry x and its beginnings with g, 11 less its order, up to one whose mark
// is as large already: that of a monomial of no larger order.
fn climb(work: &mut [u32], t: Table, ms: usize, x: u32, g: u32)
    requires marks { (P : Polynomial) × Marks t.z.n t.z.v t.z.count P ms work.old }
    requires bound { (1 ≤ x / 65536) × (x / 65536 ≤ t.z.count) }
    requires x_value { g + order (monomial_at t.z.n t.z.v (x / 65536)) ≡ 11 }
    ensures { let z = t.entry.z in Climbs z.n z.v z.count ms x work.old work.new }
{
    let mut q = position(x);
    while work[ms + q] < g {
        work[ms + q] = g;
        q = shorter(t, q);
    }
}

// Marks the monomials of a series, and their beginnings.
fn mark_series(work: &mut [u32], t: Table, cols: Columns, series: &[u32])
    requires orders_at { OrdersAt t.z.n t.z.v t.z.count cols.orders cols.marks work.old }
    requires marks { (P : Polynomial) × Marks t.z.n t.z.v t.z.count P cols.marks work.old }
    requires series { Checked t.z.count series.now }
    ensures { let z = t.entry.z in MarksSeries z.n z.v z.count cols.marks (entries series.now) work.old work.new }
{
    let m = series[0] as usize;
    for x in &series[1..m + 1] {
        let o = work[cols.orders + position(*x)];
        climb(work, t, cols.marks, *x, 11 - o);
    }
}

// The mark of position q becomes 11 less the least order of the stored monomials of the series in outer of which
// the monomial at position q is a beginning of one letter or more, and 0 where there is none. The
// constant has the largest mark in between, so that every climb ends there at the latest.
pub fn mark_beginnings(work: &mut [u32], t: Table, cols: Columns, outer: &[u32], components: usize)
    requires orders_at { OrdersAt t.z.n t.z.v t.z.count cols.orders cols.marks work.old }
    requires outer { Outer t.z.n t.z.v t.z.count components outer.now }
    requires count_in_bounds { cols.marks + t.z.count < length work.old }
    ensures { let z = t.entry.z in Marked z.n z.v z.count (outer_terms z.n z.v components outer.now) cols.marks
        work.old work.new }
{
    let r = t.z.count + 1;
    clear(work, cols.marks + 1, cols.marks + r);
    work[cols.marks + 1] = 11;
    for part in outer.chunks_exact(r).take(components) {
        mark_series(work, t, cols, part);
    }
    work[cols.marks + 1] = 0;
}

// A word before which all entries have positions below q: positions ascend, so an entry stands at
// least as far before the last one as its position is below that of the last.
fn first_word(series: &[u32], q: usize, m: usize) -> usize
    requires ascending_entries { AscendingEntries series.now }
    requires m_value { m ≡ get_or series.now 0 0 }
    ensures { FirstWord series.now q result }
{
    let last = position(series[m]);
    if last < q {
        return m + 1;
    }
    let gap = last - q;
    if m <= gap {
        return 1;
    }
    m - gap
}

// The coefficient at position q of a series: that of the first entry of a position that is not below q.
// In a dense series it is looked for at one word or two.
pub fn coefficient_in(series: &[u32], q: usize) -> u32
    requires { AscendingEntries series.now }
    ensures { result ≡ coefficient_at (entries series.now) q }
{
    let m = series[0] as usize;
    let from = first_word(series, q, m);
    let to = m.min(q) + 1;
    let at = from + series[from..to].partition_point(|w| position(*w) < q);
    if at > m {
        return 0;
    }
    let w = series[at];
    if position(w) != q {
        return 0;
    }
    coefficient(w)
}
