// Sum and difference of series: no table, no work space.
ghost use Rattle.std.specs.Prelude.{◌≡◌, [], ◌∷◌, ℕ};
ghost use Rattle.answer.specs.Refusals.{outcome};
ghost use Rattle.combination.specs.Terms.{AtResidues, Multiplies};
ghost use Rattle.checks.specs.Settings.{prime_of};
ghost use Rattle.checks.specs.Room.{Decided};
ghost use Rattle.checks.specs.Calls.{left, sum_checks, sum_call, difference_call};
ghost use Rattle.sums.specs.Combined.{combined_call};

use answer::{Answer, Refusal, Setting};
use checks::{Kind, Shape, images, prime, room};
use combination::Limits;
use counts::Sizes;

// The checks of sum and difference: 1, 2, 7.
#[tactic(auto, unfolding(checks::specs::Calls::sum_checks))]
fn pair_check(s: Setting, a: &[u32], b: &[u32], res: usize) -> Result<Sizes, Refusal>
    ensures { Decided s (sum_checks s a.now b.now res) result }
{
    let slices = [
        (Kind::Series, a.len()),
        (Kind::Series, b.len()),
        (Kind::Series, res),
    ];
    let z = room(s, &slices)?;
    images(s, z, (Shape::Series, a), Some((Shape::Series, b)))?;
    Ok(z)
}

// a and d times b, where the term of a coefficient of b is d times that coefficient.
#[tactic(auto, unfolding(crate::specs::Combined::combined_call))]
fn combined<F: Fn(u32) -> u32>(s: Setting, term: F, a: &[u32], b: &[u32], res: &mut [u32]) -> Answer
    requires callable { AtResidues (prime_of s) (λ y. F.pre term y) }
    requires multiplies { (d : ℕ) × Multiplies (prime_of s) (F.post term) d }
    ensures { (d : ℕ) → Multiplies (prime_of s) (F.post term) d
        → left (outcome result) (res.new ∷ []) ≡ combined_call d s a.now b.now res.old }
{
    let z = pair_check(s, a, b, res.len())?;
    let lim = Limits {
        count: z.count,
        p: prime(s),
    };
    combination::combine(a, b, term, res, lim);
    Ok(0)
}

// The sum of two series (01, 'The operations').
pub fn sum(s: Setting, a: &[u32], b: &[u32], res: &mut [u32]) -> Answer
    ensures { left (outcome result) (res.new ∷ []) ≡ sum_call s a.now b.now res.old }
{
    combined(s, |y| y, a, b, res)
}

// The difference of two series: p - y is p - 1 times y.
pub fn difference(s: Setting, a: &[u32], b: &[u32], res: &mut [u32]) -> Answer
    ensures { left (outcome result) (res.new ∷ []) ≡ difference_call s a.now b.now res.old }
{
    let p = prime(s);
    combined(s, |y| p - y, a, b, res)
}
