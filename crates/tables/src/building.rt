// Building the monomial table.
ghost use Rattle.std.specs.Prelude.{◌≡◌, [], ◌∷◌};
ghost use Rattle.answer.specs.Refusals.{outcome};
ghost use Rattle.checks.specs.Calls.{left, build_call};

use answer::{Answer, Setting};
use checks::{Kind, room};

// Builds the table for n and v (01, 'The monomial table'), after the checks 1 and 2.
#[tactic(auto, unfolding(checks::specs::Calls::build_checks, checks::specs::Calls::build_call))]
pub fn build_table(s: Setting, table: &mut [u16]) -> Answer
    ensures { left (outcome result) (table.new ∷ []) ≡ build_call s table.old }
{
    let z = room(s, &[(Kind::Table, table.len())])?;
    builder::build_table(table, z.n, z.v);
    Ok(0)
}
