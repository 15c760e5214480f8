// Checking a monomial table.
ghost use Rattle.std.specs.Prelude.{◌≡◌, []};
ghost use Rattle.answer.specs.Refusals.{outcome};
ghost use Rattle.checks.specs.Calls.{left, check_call};

use answer::{Answer, Setting};
use checks::{Kind, room, table_check};

// Checks a table against the rule for n and v: 1, 2, 6.
#[tactic(auto, unfolding(checks::specs::Calls::check_checks, checks::specs::Calls::check_call))]
pub fn check_table(s: Setting, table: &[u16]) -> Answer
    ensures { left (outcome result) [] ≡ check_call s table.now }
{
    let z = room(s, &[(Kind::Table, table.len())])?;
    table_check(table, z)?;
    Ok(0)
}
