// The result in parts of N + 1 words, one for each outer series: sums by position while a walk goes
// on, and the image in the end.
ghost use Rattle.std.specs.Prelude.{◌≡◌, ◌++◌, ℕ, ◌+◌, ◌*◌, drop};
ghost use Rattle.monomial.specs.Enumeration.{upto};
ghost use Rattle.series.specs.Image.{entries, coefficient_at};
ghost use Rattle.composition.specs.Parts.{nth_part, constant_words, packed_words, BeginIn, PackIn};

use series::write::clear;
use substitution::accumulate::pack;
use substitution::marks::coefficient_in;

// Each part of result becomes the sums before the walk: the constant of its outer series, at
// position 1.
pub fn begin_sums(res: &mut [u32], outer: &[u32], count: usize, components: usize)
    requires { BeginIn count components outer.now res.old }
    ensures { res.new
        ≡ upto (λ i. constant_words count
        (coefficient_at (entries (nth_part count i outer.now)) 1)) components
        ++ drop (components * (count + 1)) res.old }
{
    let r = count + 1;
    clear(res, 0, components * r);
    let parts = outer.chunks_exact(r).take(components);
    for (i, part) in parts.enumerate() {
        res[i * r + 1] = coefficient_in(part, 1);
    }
}

// Each part of result, sums by position, is packed into an image.
pub fn pack_all(res: &mut [u32], count: usize, components: usize)
    requires { PackIn count components res.old }
    ensures { res.new
        ≡ upto (λ i. packed_words count (nth_part count i res.old)) components
        ++ drop (components * (count + 1)) res.old }
{
    let r = count + 1;
    for i in 0..components {
        let from = i * r;
        let to = from + r;
        pack(&mut res[from..to], count);
    }
}
