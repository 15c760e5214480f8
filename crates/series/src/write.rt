// Writing the words of a series: one entry after another, then the number of entries and the zeros.
// The next word is handed on, and the slice is lent to no writer: `compress`, `pack` and `take_sum` read the slice
// that they write, and a sum of dense series took a tenth longer.
ghost use Rattle.std.specs.Prelude.{◌≡◌, ◌++◌, ◌+◌, ◌-◌, ◌<◌, ◌≤◌, length, take, drop, replicate};
ghost use Rattle.series.specs.Image.{entry_of, image_of};
ghost use Rattle.series.specs.Over.{over};

use crate::word::entry;

// Zeros in the words from `from` on, up to but not including word `to`.
pub fn clear(s: &mut [u32], from: usize, to: usize)
    requires from_le_to { from ≤ to }
    requires to_in_bounds { to ≤ length s.old }
    ensures { s.new ≡ over s.old from (replicate (to - from) 0) }
{
    s[from..to].fill(0);
}

// Writes the entry at position q with the coefficient c, which is not 0, into word `at`. Returns the
// next word to write.
pub fn keep(res: &mut [u32], at: usize, q: usize, c: u32) -> usize
    requires q_bound { q < 65536 }
    requires c_nonzero { (0 < c) × (c < 65536) }
    requires c_in_bounds { at + length (entry_of q c) ≤ length res.old }
    ensures value { result ≡ at + length (entry_of q c) }
    ensures res_after { res.new ≡ over res.old at (entry_of q c) }
{
    res[at] = entry(q, c);
    at + 1
}

// The same for any c: where it is 0 there is nothing to write.
pub fn put(res: &mut [u32], at: usize, q: usize, c: u32) -> usize
    requires q_bound { q < 65536 }
    requires c_bound { c < 65536 }
    requires c_in_bounds { at + length (entry_of q c) ≤ length res.old }
    ensures value { result ≡ at + length (entry_of q c) }
    ensures res_after { res.new ≡ over res.old at (entry_of q c) }
{
    if c == 0 {
        return at;
    }
    keep(res, at, q, c)
}

// Makes the image of the entries that stand in words 1 to at - 1: their number in word 0, and zeros
// behind them up to word N.
pub fn finish(res: &mut [u32], at: usize, count: usize)
    requires le_at { 1 ≤ at }
    requires at_bound { at ≤ count + 1 }
    requires count_in_bounds { count + 1 ≤ length res.old }
    requires count_bound { count < 65536 }
    ensures { res.new
        ≡ image_of count (take (at - 1) (drop 1 res.old))
        ++ drop (count + 1) res.old }
{
    res[0] = (at - 1) as u32;
    clear(res, at, count + 1);
}
