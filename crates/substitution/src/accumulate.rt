// Sums of multiples of series, kept as residues by position until they are packed into an image.
ghost use Rattle.std.specs.Prelude.{◌≡◌, ◌++◌, ℕ, ◌+◌, ◌*◌, ◌%◌, ◌<◌, ◌≤◌, length, get_or, drop};
ghost use Rattle.series.specs.Image.{packed, image_of};
ghost use Rattle.substitution.specs.Accumulate.{AddScaledIn, AddedScaled};

use series::word::{coefficient, position};
use series::write::{finish, put};

// Adds c times the entries from number `first` on of the series at word `at` of work to the residues in
// result. A residue and c times a coefficient are below 65,536 times 65,536 together, so 32 bits hold the sum.
fn add_by(res: &mut [u32], work: &[u32], at: usize, first: usize, c: u32, p: u32)
    requires { AddScaledIn res.old work.now at first c p }
    ensures { AddedScaled res.old work.now at first c p res.new }
{
    let m = work[at] as usize;
    for w in &work[at + 1 + first..at + 1 + m] {
        let q = position(*w);
        res[q] = (res[q] + c * coefficient(*w)) % p;
    }
}

// The same, with a loop of its own for the p of 01, whose divisor the compiler knows, and none where c is 0.
pub fn add_scaled(res: &mut [u32], work: &[u32], at: usize, first: usize, c: u32, p: u32)
    requires { AddScaledIn res.old work.now at first c p }
    ensures { AddedScaled res.old work.now at first c p res.new }
{
    if c == 0 {
        return;
    }
    let m = residue::modulus();
    if p == m {
        add_by(res, work, at, first, c, m);
        return;
    }
    add_by(res, work, at, first, c, p);
}

// Packs the residues at words 1 to count into the image of the series, in place: the entry of a
// position is written at a word that is not after it.
pub fn pack(res: &mut [u32], count: usize)
    requires count_in_bounds { (count + 1 ≤ length res.old) × (count < 65536) }
    requires by_index { (q : ℕ) → 1 ≤ q → q ≤ count → get_or res.old q 0 < 65536 }
    ensures { res.new
        ≡ image_of count (packed (λ q. get_or res.old q 0) count)
        ++ drop (count + 1) res.old }
{
    let mut i: usize = 1;
    for j in 0..count {
        let c = res[j + 1];
        i = put(res, i, j + 1, c);
    }
    finish(res, i, count);
}
