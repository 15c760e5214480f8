// One product of a walk: the rows of a multiplication, and the entries of the orders that it can
// have.
ghost use Rattle.std.specs.Prelude.{◌≡◌, List, ℕ, ◌+◌, ◌≤◌, length};
ghost use Rattle.series.specs.Over.{over};
ghost use Rattle.product.specs.Rows.{put};
ghost use Rattle.product.specs.Regions.{Listed};
ghost use Rattle.powers.specs.Gathering.{
  entry_at,
  TakeIn,
  RunIn,
  RunGathered,
  GatherIn,
  Gathered,
};
ghost use Rattle.powers.specs.Powers.{PowerIn, Powered};

use crate::collect::collect;
use counts::Table;
use product::{Factor, Source};
use series::word::position;
use series::write::put;

// Makes an entry, at word i, of the sum at place q modulo p, unless that is 0, and makes the sum 0.
// Answers the next word.
pub fn take_sum(work: &mut [u32], i: usize, q: usize, p: u32) -> usize
    requires { TakeIn work.old i q p }
    ensures { (result ≡ i + length (entry_at work.old q p))
        × (work.new
        ≡ over (put work.old q 0) i (entry_at work.old q p)) }
{
    let s = product::sum_at(work, q);
    if s == 0 {
        return i;
    }
    work[2 * q] = 0;
    work[2 * q + 1] = 0;
    let c = residue::reduce(s, p);
    put(work, i, q, c)
}

// Makes entries, from word i on, of the sums at the positions that are listed from `from` to `to`.
// Answers the next word.
fn gather_run(work: &mut [u32], ps: usize, from: usize, to: usize, i: usize, p: u32) -> usize
    requires { (n : ℕ) × (v : ℕ) × (N : ℕ) × (lo : ℕ) × (cut : ℕ) × (dst : ℕ) × (w₀ : List ℕ)
        × RunIn n v N lo cut ps from to dst p w₀ work.old i }
    ensures { (n v N lo cut dst : ℕ) (w₀ : List ℕ)
        → RunIn n v N lo cut ps from to dst p w₀ work.old i
        → RunGathered n v N lo cut ps from to dst p w₀ work.old i work.new result }
{
    let mut e = i;
    for k in from..to {
        let q = position(work[ps + 1 + k]);
        e = take_sum(work, e, q, p);
    }
    e
}

// Makes entries, at word dst, of the sums at the positions that are listed from `from` to `to`.
// Answers how many of them stand at positions listed before `mid`.
fn gather(
    work: &mut [u32],
    ps: usize,
    from: usize,
    mid: usize,
    to: usize,
    dst: usize,
    p: u32,
) -> usize
    requires { (n : ℕ) × (v : ℕ) × (N : ℕ) × (lo : ℕ) × (cut : ℕ)
        × GatherIn n v N lo cut ps from mid to dst p work.old }
    ensures { (n v N lo cut : ℕ) → GatherIn n v N lo cut ps from mid to dst p work.old
        → Gathered n v N lo cut ps from mid to dst p work.old work.new result }
{
    let i = gather_run(work, ps, from, mid, dst + 1, p);
    let e = gather_run(work, ps, mid, to, i, p);
    work[dst] = (e - dst - 1) as u32;
    i - dst - 1
}

// Which terms a product keeps: those of order lo or more; how many are of an order below `wanted` is told. And
// where the positions stand listed by order: in the upper halves behind word ps, those of order o from number
// starts[o] on.
#[derive(Clone, Copy)]
pub struct Terms<'a> {
    pub lo: usize,
    pub wanted: usize,
    pub ps: usize,
    pub starts: &'a [u32],
}

// Multiplies the source by the listed entries, and writes the terms of orders lo to cut at word dst. Answers how many
// of them, the first, are of an order below `wanted` and stand together.
pub fn multiply(
    work: &mut [u32],
    t: Table,
    f: Factor,
    g: Terms,
    s: Source,
    dst: usize,
    p: u32,
) -> usize
    requires { let z = t.z in PowerIn z.n z.v z.count z.codes g.lo g.wanted f.cut f.os f.cs g.ps
        t.words.now work.old f.ends.now g.starts.now s.at s.m dst p }
    ensures { let z = t.entry.z in (ys : List ℕ) → Listed z.n z.v z.count ys f.entry.cs work.old f.entry.ends.now
        → Powered z.n z.v z.count g.entry.lo g.entry.wanted f.entry.cut s.at s.m dst p ys work.old work.new result }
{
    let pairs = product::rows(work, t, f, s, 0);
    // Place 0 is no position's: it is not listed, and what the rows leave of it is not said.
    work[0] = 0;
    work[1] = 0;
    let from = g.starts[g.lo] as usize;
    let mid = g.starts[g.lo.max(g.wanted)] as usize;
    let to = g.starts[f.cut + 1] as usize;
    let known = residue::modulus();
    // A pair costs about as much as two positions. For the p of 01 there are loops of their own, whose divisor
    // the compiler knows.
    if 2 * pairs <= (to - from) as u64 {
        if p == known {
            collect(work, t, f, s, dst, known);
            return 0;
        }
        collect(work, t, f, s, dst, p);
        return 0;
    }
    if p == known {
        return gather(work, g.ps, from, mid, to, dst, known);
    }
    gather(work, g.ps, from, mid, to, dst, p)
}
