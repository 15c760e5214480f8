// Bracket of series.
#![tactic(auto)]

ghost use Rattle.std.specs.Prelude.{◌≡◌, [], ◌∷◌};
ghost use Rattle.answer.specs.Refusals.{verdict, outcome};
ghost use Rattle.answer.specs.Checks.{even_check};
ghost use Rattle.checks.specs.Inputs.{Tested};
ghost use Rattle.checks.specs.Calls.{left, bracket_checks, bracket_call};

use answer::{Answer, Check, Refusal, Setting};
use checks::{Kind, Shape, inputs, prime, room, work_words};
use counts::Table;

// 4: the variables do not come in pairs.
#[tactic(auto, unfolding(answer::specs::Checks::even_check))]
fn even_check(s: Setting) -> Check
    ensures { verdict result ≡ even_check s.v }
{
    if s.v % 2 != 0 {
        return Err(Refusal::OddVariables);
    }
    Ok(())
}

// The checks of the bracket: 1, 2, 4, 6, 7.
#[tactic(auto, unfolding(checks::specs::Calls::bracket_checks))]
fn bracket_check<'a>(
    s: Setting,
    t: &'a [u16],
    a: &[u32],
    b: &[u32],
    res: usize,
    work: usize,
) -> Result<Table<'a>, Refusal>
    ensures { Tested s (bracket_checks s t.now a.now b.now res work) t.now result }
{
    let slices = [
        (Kind::Table, t.len()),
        (Kind::Series, a.len()),
        (Kind::Series, b.len()),
        (Kind::Series, res),
        (Kind::Work, work),
    ];
    let z = room(s, &slices)?;
    even_check(s)?;
    inputs(s, z, t, (Shape::Series, a), Some((Shape::Series, b)))
}

// The bracket of two series, for even v: the sum over the pairs of variables (x1, x2), (x3, x4), .. of the
// derivative of a in the odd one times that of b in the even one, less the two exchanged.
#[tactic(auto, unfolding(checks::specs::Calls::bracket_call))]
pub fn bracket(
    s: Setting,
    table: &[u16],
    a: &[u32],
    b: &[u32],
    res: &mut [u32],
    work: &mut [u32],
) -> Answer
    ensures { left (outcome result) (res.new ∷ work.new ∷ []) ≡ bracket_call s
        table.now a.now b.now res.old work.old }
{
    let t = bracket_check(s, table, a, b, res.len(), work.len())?;
    let words = work_words(t.z);
    bracket::bracket(work, t, a, b, res, words, prime(s));
    Ok(0)
}
