// Which words are images (01, refusal 7), and which maps have a constant (01, refusal 8).
ghost use Rattle.std.specs.Prelude.{◌≡◌, ℕ, ◌+◌, ◌*◌, ◌<◌, ◌≤◌, All, length};
ghost use Rattle.answer.specs.Refusals.{passed, verdict};
ghost use Rattle.series.specs.Faults.{entry_is_good, word_is_good};
ghost use Rattle.series.specs.Arguments.{argument_check, arguments_check, constants_check};

use crate::Form;
use answer::{Check, Refusal};
use series::word::{coefficient, position};

impl Form {
    // Whether w is an entry: its position above that of the entry before it and at most N, its
    // coefficient 1 to p - 1.
    #[tactic(auto, unfolding(series::specs::Faults::entry_is_good))]
    fn entry_is_good(self, w: u32, prev: usize) -> bool
        ensures { result ≡ entry_is_good self.p self.count prev w }
    {
        let q = position(w);
        let c = coefficient(w);
        prev < q && q <= self.count && 0 < c && c < self.p
    }

    // Whether word k of a series of m entries is good: one of the entries, or a zero after them.
    #[tactic(auto, unfolding(series::specs::Faults::word_is_good))]
    fn word_is_good(self, w: u32, k: usize, m: usize, prev: usize) -> bool
        ensures { result ≡ word_is_good self.p self.count m k prev w }
    {
        if k <= m {
            self.entry_is_good(w, prev)
        } else {
            w == 0
        }
    }
}

// Refusal 7 for the arguments of a call, each its words and how many components they are: the
// arguments in order, the components inside them, and word by word: m first, then each entry against
// its predecessor, then the zeros. The first faulty word leaves all three loops.
pub fn image_check(arguments: &[(&[u32], usize)], f: Form) -> Check
    requires { All (λ x. x.1 * (f.count + 1) ≤ length x.0.now) arguments.now }
    ensures { verdict result ≡ arguments_check f.p f.count 1 arguments.now }
{
    let mut answer: Check = Ok(());
    'arguments: for (argument, &(words, components)) in arguments.iter().enumerate() {
        let parts = words.chunks_exact(f.count + 1).take(components);
        for (component, part) in parts.enumerate() {
            let m = part[0] as usize;
            if f.count < m {
                answer = Err(Refusal::NotAnImage(argument + 1, component + 1, 0));
                break 'arguments;
            }
            let mut prev = 0;
            for k in 1..f.count + 1 {
                let w = part[k];
                if !f.word_is_good(w, k, m, prev) {
                    answer = Err(Refusal::NotAnImage(argument + 1, component + 1, k));
                    break 'arguments;
                }
                prev = position(w);
            }
        }
    }
    answer
}

// Refusal 8 for a map of k components, each an image: its entries ascend, so only the first of them
// can stand at position 1, the constant's. By index, since of no components count may be so large that
// count + 1, the size of a part, overflows.
pub fn constant_check(map: &[u32], k: usize, count: usize) -> Check
    requires count_in_bounds { k * (count + 1) ≤ length map.now }
    requires count_nonzero { 0 < count }
    requires by_index { (p : ℕ) × (a : ℕ) × (argument_check p count a k map.now ≡ passed) }
    ensures { verdict result ≡ constants_check count k map.now }
{
    for i in 0..k {
        if position(map[i * (count + 1) + 1]) == 1 {
            return Err(Refusal::HasConstant(i + 1));
        }
    }
    Ok(())
}
