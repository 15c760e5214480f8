// The entries of a product by its pairs: where there are few of them, going over the pairs once more is
// quicker than looking at all positions of the orders that the product can have.
ghost use Rattle.std.specs.Prelude.{List, ℕ};
ghost use Rattle.powers.specs.Collecting.{TakeRowIn, RowTaken, CollectIn, Collected};

use crate::power::take_sum;
use counts::Table;
use product::{Factor, RowHead, Source, high, low, row_head, spot};

// Makes entries, from word i on, of the sums to which the pairs of the row h lead. Answers the next word.
fn take_row(work: &mut [u32], t: &[u16], h: RowHead, cs: usize, i: usize, p: u32) -> usize
    requires { (n : ℕ) × (v : ℕ) × (N : ℕ) × (lo : ℕ) × (cut : ℕ) × (dst : ℕ) × (w₀ : List ℕ)
        × TakeRowIn n v N lo cut dst p w₀ t.now work.old h.d1 h.d2 cs h.lim i }
    ensures { (n v N lo cut dst : ℕ) (w₀ : List ℕ)
        → TakeRowIn n v N lo cut dst p w₀ t.now work.old h.d1 h.d2 cs h.lim i
        → RowTaken n v N lo cut dst p w₀ t.now h.d1 h.d2 cs h.lim i work.old work.new result }
{
    let mut e = i;
    for k in 0..h.lim {
        let q = work[cs + k];
        let j = spot(t, h.d1 + low(q), h.d2 + high(q));
        e = take_sum(work, e, j, p);
    }
    e
}

// Makes entries, at word dst, of the sums of the pairs of the entries of the source with the listed entries.
pub fn collect(work: &mut [u32], t: Table, f: Factor, s: Source, dst: usize, p: u32)
    requires { let z = t.z in (lo : ℕ) × (ys : List ℕ) × CollectIn z.n z.v z.count z.codes lo f.cut f.os f.cs
        t.words.now work.old f.ends.now s.at s.m dst p ys }
    ensures { let z = t.entry.z in let g = f.entry in (lo : ℕ) (ys : List ℕ)
        → CollectIn z.n z.v z.count z.codes lo g.cut g.os g.cs t.entry.words.now work.old g.ends.now s.at s.m dst p ys
        → Collected z.n z.v z.count lo g.cut dst p work.old work.new }
{
    let mut e = dst + 1;
    for i in 0..s.m {
        let h = row_head(work, t.words, t.z, f, work[s.at + 1 + i]);
        e = take_row(work, t.words, h, f.cs, e, p);
    }
    work[dst] = (e - dst - 1) as u32;
}
