// Product of series.
#![tactic(auto)]

ghost use Rattle.std.specs.Prelude.{◌≡◌, [], ◌∷◌};
ghost use Rattle.answer.specs.Refusals.{outcome};
ghost use Rattle.checks.specs.Inputs.{Tested};
ghost use Rattle.checks.specs.Calls.{left, product_checks, product_call};

use answer::{Answer, Refusal, Setting};
use checks::{Kind, Shape, inputs, prime, room, work_words};
use counts::Table;

// The checks of the product: 1, 2, 6, 7.
#[tactic(auto, unfolding(checks::specs::Calls::product_checks))]
fn product_check<'a>(
    s: Setting,
    t: &'a [u16],
    a: &[u32],
    b: &[u32],
    res: usize,
    work: usize,
) -> Result<Table<'a>, Refusal>
    ensures { Tested s (product_checks s t.now a.now b.now res work) t.now result }
{
    let z = room(
        s,
        &[
            (Kind::Table, t.len()),
            (Kind::Series, a.len()),
            (Kind::Series, b.len()),
            (Kind::Series, res),
            (Kind::Work, work),
        ],
    )?;
    inputs(s, z, t, (Shape::Series, a), Some((Shape::Series, b)))
}

// The product of two series, cut at order n (002, 5). It reports the number of pairs of entries whose orders
// add to at most n.
#[tactic(auto, unfolding(checks::specs::Calls::product_call))]
pub fn product(
    s: Setting,
    table: &[u16],
    a: &[u32],
    b: &[u32],
    res: &mut [u32],
    work: &mut [u32],
) -> Answer
    ensures { left (outcome result) (res.new ∷ work.new ∷ []) ≡ product_call s
        table.now a.now b.now res.old work.old }
{
    let t = product_check(s, table, a, b, res.len(), work.len())?;
    let p = prime(s);
    let words = work_words(t.z);
    let pairs = product::product(work, t, a, b, res, words, p);
    Ok(pairs)
}
