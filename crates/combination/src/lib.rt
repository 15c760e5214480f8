// Sum, difference and multiple of series: a + d b and c a, entry by entry in ascending position.
#![tactic(auto)]

ghost use Rattle.std.specs.Prelude.{◌≡◌, ◌++◌, map, ℕ, ◌+◌, ◌-◌, ◌*◌, ◌%◌, ◌<◌, ◌≤◌, length, get_or, drop};
ghost use Rattle.residue.specs.Modulus.{Prime};
ghost use Rattle.series.specs.Image.{scaled, entries, coefficient_at, packed, image_of};
ghost use Rattle.series.specs.Faults.{first_fault};
ghost use Rattle.series.specs.Over.{over};
ghost use Rattle.combination.specs.Terms.{AtEntries, AtResidues, Times, Multiplies};

use residue::{add, multiply_near};
use series::word::{coefficient, entry, position};
use series::write::{finish, keep, put};

// What the entries of a series keep to: positions 1 to N, coefficients below a prime p.
#[derive(Clone, Copy)]
pub struct Limits {
    pub count: usize,
    pub p: u32,
    ghost positions: { (0 < count) × (count < 65535) },
    ghost prime: { Prime p × (65280 < p) × (p ≤ 65536) },
}

// Writes the entries of a series behind the first `from`, the term of each coefficient in its place,
// from word `at` of result on. Returns the next word to write. Each entry is written without a test:
// no term of a coefficient is 0.
fn put_terms<F: Fn(u32) -> u32>(
    words: &[u32],
    from: usize,
    term: F,
    res: &mut [u32],
    at: usize,
) -> usize
    requires words_in_bounds { (from ≤ get_or words.now 0 0) × (get_or words.now 0 0 < length words.now) }
    requires from_in_bounds { at + (get_or words.now 0 0 - from) ≤ length res.old }
    requires callable { AtEntries words.now (λ x. F.pre term x) }
    requires below { AtEntries words.now (λ x. (y : ℕ) → F.post term x y → y < 65536) }
    ensures value { result ≡ at + (get_or words.now 0 0 - from) }
    ensures res_after { (p c : ℕ) → AtEntries words.now (Times p c (F.post term))
        → res.new ≡ over res.old at (map (scaled p c) (drop from (entries words.now))) }
{
    let m = words[0] as usize;
    for (k, w) in words[from + 1..m + 1].iter().enumerate() {
        res[at + k] = entry(position(*w), term(coefficient(*w)));
    }
    at + (m - from)
}

// The series a + d b, where the term of a coefficient of b is d times that coefficient. While both
// series have entries left their positions are compared; then the rest of one is left. Compiled into its
// callers, which know the term and p.
#[inline(always)]
pub fn combine<F: Fn(u32) -> u32>(a: &[u32], b: &[u32], term: F, res: &mut [u32], lim: Limits)
    requires callable { AtResidues lim.p (λ y. F.pre term y) }
    requires multiplies { (d : ℕ) × Multiplies lim.p (F.post term) d }
    requires count_in_bounds { lim.count + 1 ≤ length res.old }
    requires a_value { first_fault lim.p lim.count a.now ≡ lim.count + 1 }
    requires b_value { first_fault lim.p lim.count b.now ≡ lim.count + 1 }
    ensures { (d : ℕ) → Multiplies lim.p (F.post term) d → res.new
        ≡ image_of lim.count (packed (λ q. (coefficient_at (entries a.now) q
        + d * coefficient_at (entries b.now) q) % lim.p) lim.count)
        ++ drop (lim.count + 1) res.old }
{
    let m = a[0] as usize;
    let n = b[0] as usize;
    let mut i = 0;
    let mut j = 0;
    let mut at = 1;
    while i < m && j < n {
        let u = a[i + 1];
        let v = b[j + 1];
        let q = position(u);
        let s = position(v);
        if q < s {
            let c = coefficient(u);
            at = keep(res, at, q, c);
            i += 1;
        } else if s < q {
            let c = term(coefficient(v));
            at = keep(res, at, s, c);
            j += 1;
        } else {
            let c = add(coefficient(u), term(coefficient(v)), lim.p);
            at = put(res, at, q, c);
            i += 1;
            j += 1;
        }
    }
    at = put_terms(a, i, |x| x, res, at);
    at = put_terms(b, j, term, res, at);
    finish(res, at, lim.count);
}

// The series c a.
pub fn multiple(a: &[u32], c: u32, res: &mut [u32], lim: Limits)
    requires c_lt_p { c < lim.p }
    requires count_in_bounds { lim.count + 1 ≤ length res.old }
    requires a_value { first_fault lim.p lim.count a.now ≡ lim.count + 1 }
    ensures { res.new
        ≡ image_of lim.count (packed (λ q. (c * coefficient_at (entries a.now) q) % lim.p) lim.count)
        ++ drop (lim.count + 1) res.old }
{
    if c == 0 {
        finish(res, 1, lim.count);
        return;
    }
    let at = put_terms(a, 0, |x| multiply_near(c, x, lim.p), res, 1);
    finish(res, at, lim.count);
}
