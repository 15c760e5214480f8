// Refusal 7 for words that are likely to be images: one pass without a branch for each word says
// whether all is well, and only where it is not the loops of check.rt look for the first fault.
ghost use Rattle.std.specs.Prelude.{◌≡◌, ℕ, ◌+◌, ◌*◌, ◌<◌, ◌≤◌, All, eqb, length, sum};
ghost use Rattle.answer.specs.Refusals.{verdict};
ghost use Rattle.series.specs.Faults.{first_fault};
ghost use Rattle.series.specs.Arguments.{argument_check, arguments_check};
ghost use Rattle.faults.specs.Quick.{misfit, misfits, passes};

use crate::{Form, check};
use answer::Check;
use series::word::position;

impl Form {
    // How many rules the entry w breaks behind the word u.
    #[tactic(auto, unfolding(crate::specs::Quick::misfit, algebra::specs::Polynomial::indicator))]
    fn misfit(self, u: u32, w: u32) -> u32
        ensures { (result ≡ misfit self.p u w) × (result ≤ 3) }
    {
        u32::from(w / 65536 <= u / 65536)
            + u32::from(w % 65536 == 0)
            + u32::from(self.p <= w % 65536)
    }

    // How many rules the words 1 to m break, each behind the word before it.
    #[tactic(auto, using(crate::proofs::CodeQuick::sum_more), unfolding(algebra::specs::Sum::sum_to))]
    fn misfits(self, words: &[u32], m: usize) -> u32
        requires { (m < length words.now) × (m < 65536) }
        ensures { result ≡ misfits self.p m words.now }
    {
        let mut bad: u32 = 0;
        for k in 0..m {
            bad += self.misfit(words[k], words[k + 1]);
        }
        bad
    }

    // Whether words is an image: the positions rise up to the last, so that only the last is compared
    // with N.
    fn is_image(self, words: &[u32]) -> bool
        requires { length words.now ≡ self.count + 1 }
        ensures { result ≡ eqb (first_fault self.p self.count words.now) (self.count + 1) }
    {
        let m = words[0] as usize;
        m <= self.count
            && self.misfits(words, m) == 0
            && position(words[m]) <= self.count
            && rest(&words[m + 1..]) == 0
    }

    // Whether the k components of words are images.
    fn are_images(self, words: &[u32], k: usize) -> bool
        requires { k * (self.count + 1) ≤ length words.now }
        ensures { (a : ℕ) → result ≡ passes (argument_check self.p self.count a k words.now) }
    {
        for i in 0..k {
            let at = i * (self.count + 1);
            if !self.is_image(&words[at..at + (self.count + 1)]) {
                return false;
            }
        }
        true
    }
}

// The sum of the words: 0 where all of them are 0.
fn rest(words: &[u32]) -> u64
    requires { length words.now ≤ 65536 }
    ensures { result ≡ sum words.now }
{
    words.iter().map(|w| u64::from(*w)).sum()
}

// Refusal 7 for the arguments of a call, each its words and how many components they are.
pub fn image_check(arguments: &[(&[u32], usize)], f: Form) -> Check
    requires { All (λ x. x.1 * (f.count + 1) ≤ length x.0.now) arguments.now }
    ensures { verdict result ≡ arguments_check f.p f.count 1 arguments.now }
{
    for &(words, components) in arguments {
        if !f.are_images(words, components) {
            return check::image_check(arguments, f);
        }
    }
    Ok(())
}
