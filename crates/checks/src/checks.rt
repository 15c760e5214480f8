// Refusal 6.
ghost use Rattle.std.specs.Prelude.{◌≡◌, ◌≤◌, length};
ghost use Rattle.monomial.specs.Count.{words, Allowed};
ghost use Rattle.answer.specs.Refusals.{verdict};
ghost use Rattle.answer.specs.Checks.{table_check};

use answer::{Check, Refusal};
use counts::Sizes;

// 6: the first word of the table that differs from the rule.
#[tactic(auto, unfolding(answer::specs::Checks::table_check))]
pub fn table_check(table: &[u16], z: Sizes) -> Check
    requires { Allowed z.n z.v × (words z.n z.v ≤ length table.now) }
    ensures { verdict result ≡ table_check z.n z.v table.now }
{
    match checker::first_difference(table, z.n, z.v) {
        Some(w) => Err(Refusal::TableDiffers(w)),
        None => Ok(()),
    }
}
