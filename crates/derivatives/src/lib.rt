// Derivative of a series.
#![tactic(auto)]

ghost use Rattle.std.specs.Prelude.{◌≡◌, [], ◌∷◌};
ghost use Rattle.answer.specs.Refusals.{verdict, outcome};
ghost use Rattle.answer.specs.Checks.{variable_check};
ghost use Rattle.checks.specs.Inputs.{Tested};
ghost use Rattle.checks.specs.Calls.{left, derivative_checks, derivative_call};

use answer::{Answer, Check, Refusal, Setting};
use checks::{Kind, Shape, inputs, prime, room};
use counts::Table;
use derivation::derivative;

// 3: the variable is not one of 1 to v.
#[tactic(auto, unfolding(answer::specs::Checks::variable_check))]
fn variable_check(s: Setting, k: u32) -> Check
    ensures { verdict result ≡ variable_check s.v k }
{
    if k < 1 || s.v < k {
        return Err(Refusal::VariableOutOfRange);
    }
    Ok(())
}

// The checks of the derivative: 1, 2, 3, 6, 7.
#[tactic(auto, unfolding(checks::specs::Calls::derivative_checks))]
fn derivative_check<'a>(
    s: Setting,
    k: u32,
    t: &'a [u16],
    a: &[u32],
    res: usize,
) -> Result<Table<'a>, Refusal>
    ensures { Tested s (derivative_checks s k t.now a.now res) t.now result }
{
    let slices = [
        (Kind::Table, t.len()),
        (Kind::Series, a.len()),
        (Kind::Series, res),
    ];
    let z = room(s, &slices)?;
    variable_check(s, k)?;
    inputs(s, z, t, (Shape::Series, a), None)
}

// The derivative of a series in variable k, from 1.
#[tactic(auto, unfolding(checks::specs::Calls::derivative_call))]
pub fn derivative(s: Setting, k: u32, table: &[u16], a: &[u32], res: &mut [u32]) -> Answer
    ensures { left (outcome result) (res.new ∷ []) ≡ derivative_call s k table.now a.now res.old }
{
    let t = derivative_check(s, k, table, a, res.len())?;
    let x = k as usize - 1;
    derivative::derivative(a, t, x, 1, res, prime(s));
    Ok(0)
}
