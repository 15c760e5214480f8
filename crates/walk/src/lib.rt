// The walk over the beginnings of monomials: each product of inner components is that of the
// beginning one letter shorter times one component.
#![tactic(auto)]

ghost use Rattle.std.specs.Prelude.{◌≡◌, Bool, List, ℕ, ◌+◌, ◌*◌, ◌-◌, ◌≤◌, ◌<◌, length, get_or};
ghost use Rattle.algebra.specs.Polynomial.{Monomial, Polynomial};
ghost use Rattle.walk.specs.Walking.{list_at, Planned, Laid, Node, Sums, Walked};
ghost use Rattle.walk.specs.Stepping.{AddAllIn, AddedAll, StepIn, Stepped};

use counts::{Sizes, Table};
use powers::power::{Terms, multiply};
use product::{Factor, Source};
use substitution::accumulate::add_scaled;
use substitution::marks::{Columns, child, coefficient_in};

// What a walk goes by, and reads: the table, the outer series and their number, how many entries of each listed inner
// component there are up to each order, where the listed positions of each order begin, the columns by position of
// the work slice, the order at which all is cut, the lowest order that is wanted of the sums, the least order of a
// monomial whose multiple is added, and the modulus.
#[derive(Clone, Copy)]
pub struct Plan<'a> {
    pub t: Table<'a>,
    pub outer: &'a [u32],
    pub components: usize,
    pub ends: &'a [[u32; 11]],
    pub starts: &'a [u32],
    pub columns: Columns,
    pub cut: usize,
    pub wanted: usize,
    pub least: usize,
    pub p: u32,
}

// The word at which inner component k is listed.
pub fn list_at(z: Sizes, k: usize) -> usize
    requires { (k ≤ 8) × (z.count ≤ 43758) }
    ensures { result ≡ list_at z.count k }
{
    (k + 1) * (2 * (z.count + 1))
}

// Adds to each part of result the product at word `at`, times the coefficient of its outer series
// at position q. The entries of the product before number `first` are not wanted.
fn add_all(res: &mut [u32], work: &[u32], s: &Plan, q: usize, at: usize, first: usize)
    requires { AddAllIn s.now work.now res.old q at first }
    ensures { AddedAll s.now work.now q at res.old res.new }
{
    if (work[s.columns.orders + q] as usize) < s.least {
        return;
    }
    let r = s.t.z.count + 1;
    // by index: the part of result stands at the same words, and after a loop over lent parts a proof knows no word
    for i in 0..s.components {
        let from = i * r;
        let to = from + r;
        let c = coefficient_in(&s.outer[from..to], q);
        add_scaled(&mut res[from..to], work, at, first, c, s.p);
    }
}

// The product of one letter more, variable k, of the monomial at position q and of order lo, and its
// multiples added to the parts of result. The product of the shorter one stands at word `at`.
fn step(work: &mut [u32], res: &mut [u32], s: &Plan, k: usize, lo: usize, q: usize, at: usize)
    requires laid { Laid s.now }
    requires by_index { (ys : ℕ → List ℕ) × (mark : Monomial → Bool) × (κ : ℕ → Monomial → ℕ)
        × Planned s.now work.old ys mark κ }
    requires step_in { (Q : Polynomial) × StepIn s.now work.old k lo q at Q }
    requires by_index_2 { (A : ℕ → Polynomial) × Sums s.now res.old A }
    ensures { (ys : ℕ → List ℕ) (mark : Monomial → Bool) (κ : ℕ → Monomial → ℕ)
        (Q : Polynomial) (A : ℕ → Polynomial)
        → Planned s.now work.old ys mark κ
        → StepIn s.now work.old k lo q at Q → Sums s.now res.old A
        → Stepped s.now ys κ k lo q at Q A work.old work.new
        res.old res.new }
{
    let f = Factor {
        cut: s.cut,
        os: s.columns.orders,
        cs: list_at(s.t.z, k),
        ends: &s.ends[k],
    };
    let g = Terms {
        lo,
        wanted: s.wanted,
        ps: s.columns.marks,
        starts: s.starts,
    };
    let shorter = Source {
        at,
        m: work[at] as usize,
    };
    let dst = at - (s.t.z.count + 1);
    let first = multiply(work, s.t, f, g, shorter, dst, s.p);
    add_all(res, work, s, q, dst, first);
}

// Adds to each part of result what the monomials longer than that of position q, by up to `left`
// letters from variable l on, give: their coefficient times their product. Only beginnings of stored
// monomials of order at most the cut are entered: a mark is 11 less the least order of one that begins
// so.
pub fn walk(work: &mut [u32], res: &mut [u32], s: &Plan, q: usize, l: usize, at: usize, left: usize)
    requires laid { Laid s.now }
    requires by_index { (ys : ℕ → List ℕ) × (mark : Monomial → Bool) × (κ : ℕ → Monomial → ℕ)
        × Planned s.now work.old ys mark κ }
    requires node { (m : Monomial) × (Q : Polynomial) × Node s.now work.old q at left m Q }
    requires by_index_2 { (A : ℕ → Polynomial) × Sums s.now res.old A }
    requires l_le_v { l ≤ s.now.t.z.v }
    ensures { (ys : ℕ → List ℕ) (mark : Monomial → Bool) (κ : ℕ → Monomial → ℕ)
        (m : Monomial) (Q : Polynomial) (A : ℕ → Polynomial)
        → Planned s.now work.old ys mark κ
        → Node s.now work.old q at left m Q → Sums s.now res.old A
        → Walked s.now ys mark κ l m Q left at A
        work.old work.new res.old res.new }
{
    if left == 0 {
        return;
    }
    let r = s.t.z.count + 1;
    let lo = s.cut - left + 1;
    for k in l..s.t.z.v {
        let c = child(s.t, q, k);
        if (work[s.columns.marks + c] % 65536) as usize + s.cut >= 11 {
            step(work, res, s, k, lo, c, at);
            // spares a call at each leaf, which would return at once
            if left > 1 {
                walk(work, res, s, c, k, at - r, left - 1);
            }
        }
    }
}
