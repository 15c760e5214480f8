// The multiple of a series: no table, no work space.
ghost use Rattle.std.specs.Prelude.{◌≡◌, [], ◌∷◌};
ghost use Rattle.answer.specs.Refusals.{verdict, outcome};
ghost use Rattle.answer.specs.Checks.{multiplier_check};
ghost use Rattle.checks.specs.Room.{Decided};
ghost use Rattle.checks.specs.Calls.{left, multiple_checks, multiple_call};

use answer::{Answer, Check, Refusal, Setting};
use checks::{Kind, Shape, images, prime, room};
use combination::Limits;
use counts::Sizes;

// 5: the multiplier is no residue.
#[tactic(auto, unfolding(answer::specs::Checks::multiplier_check))]
fn multiplier_check(c: u32, p: u32) -> Check
    ensures { verdict result ≡ multiplier_check p c }
{
    if p <= c {
        return Err(Refusal::MultiplierOutOfRange);
    }
    Ok(())
}

// The checks of the multiple: 1, 2, 5, 7.
#[tactic(auto, unfolding(checks::specs::Calls::multiple_checks))]
fn multiple_check(s: Setting, c: u32, a: &[u32], res: usize) -> Result<Sizes, Refusal>
    ensures { Decided s (multiple_checks s c a.now res) result }
{
    let z = room(s, &[(Kind::Series, a.len()), (Kind::Series, res)])?;
    multiplier_check(c, prime(s))?;
    images(s, z, (Shape::Series, a), None)?;
    Ok(z)
}

// The multiple of a series by c.
#[tactic(auto, unfolding(checks::specs::Calls::multiple_call))]
pub fn multiple(s: Setting, c: u32, a: &[u32], res: &mut [u32]) -> Answer
    ensures { left (outcome result) (res.new ∷ []) ≡ multiple_call s c a.now res.old }
{
    let z = multiple_check(s, c, a, res.len())?;
    let lim = Limits {
        count: z.count,
        p: prime(s),
    };
    combination::multiple(a, c, res, lim);
    Ok(0)
}
