// Inversion of maps.
#![tactic(auto)]

ghost use Rattle.std.specs.Prelude.{◌≡◌, [], ◌∷◌};
ghost use Rattle.answer.specs.Refusals.{outcome};
ghost use Rattle.checks.specs.Inputs.{Tested};
ghost use Rattle.checks.specs.Calls.{left, invert_call};
ghost use Rattle.inversions.specs.Origin.{origin_checks};

use answer::{Answer, Refusal, Setting};
use checks::{Kind, Shape, constants, inputs, prime, room, work_words};
use counts::Table;

// The checks of the inversion but for the last: 1, 2, 6, 7, 8.
#[tactic(auto, unfolding(crate::specs::Origin::origin_checks))]
fn origin_check<'a>(
    s: Setting,
    t: &'a [u16],
    map: &[u32],
    res: usize,
    work: usize,
) -> Result<Table<'a>, Refusal>
    ensures { Tested s (origin_checks s t.now map.now res work) t.now result }
{
    let slices = [
        (Kind::Table, t.len()),
        (Kind::Map, map.len()),
        (Kind::Map, res),
        (Kind::Work, work),
    ];
    let z = room(s, &slices)?;
    let table = inputs(s, z, t, (Shape::Map, map), None)?;
    constants(s, z, map)?;
    Ok(table)
}

// The one map that undoes the given one, before it and after it. The map must fix the origin, and the
// determinant of its linear part must not be 0 modulo p: the last check, 9, takes the linear part by value.
#[tactic(auto, unfolding(checks::specs::Calls::invert_checks, checks::specs::Calls::invert_call, crate::specs::Origin::origin_checks))]
pub fn invert(s: Setting, table: &[u16], map: &[u32], res: &mut [u32], work: &mut [u32]) -> Answer
    ensures { left (outcome result) (res.new ∷ work.new ∷ []) ≡ invert_call s
        table.now map.now res.old work.old }
{
    let t = origin_check(s, table, map, res.len(), work.len())?;
    let p = prime(s);
    let l = turn::linear_part(map, t, p);
    let m = linear::invert(l, t.z.v, p).ok_or(Refusal::Singular)?;
    let words = work_words(t.z);
    iteration::invert(work, t, map, res, words, m, p);
    Ok(0)
}
