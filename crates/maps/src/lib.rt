// Substitution of a map into a series, and composition of maps: one walk for all outer series.
#![tactic(auto)]

ghost use Rattle.std.specs.Prelude.{◌≡◌, [], ◌∷◌};
ghost use Rattle.answer.specs.Refusals.{outcome};
ghost use Rattle.checks.specs.Inputs.{Tested};
ghost use Rattle.checks.specs.Calls.{left, substitute_call, compose_call};
ghost use Rattle.maps.specs.Outer.{outer_checks, outer_call};

use answer::{Answer, Refusal, Setting};
use checks::{Kind, Shape, constants, inputs, prime, room, work_words};
use counts::Table;

// The checks of both: 1, 2, 6, 7, 8. The outer argument and the result are of shape k. Only the inner map must fix
// the origin.
#[tactic(auto, unfolding(crate::specs::Outer::outer_checks))]
fn composed_check<'a>(
    s: Setting,
    k: Shape,
    t: &'a [u16],
    outer: &[u32],
    inner: &[u32],
    res: usize,
    work: usize,
) -> Result<Table<'a>, Refusal>
    ensures { Tested s (outer_checks k s t.now outer.now inner.now res work) t.now result }
{
    let kind = k.kind();
    let slices = [
        (Kind::Table, t.len()),
        (kind, outer.len()),
        (Kind::Map, inner.len()),
        (kind, res),
        (Kind::Work, work),
    ];
    let z = room(s, &slices)?;
    let table = inputs(s, z, t, (k, outer), Some((Shape::Map, inner)))?;
    constants(s, z, inner)?;
    Ok(table)
}

// The inner map substituted into an outer argument of shape k.
#[tactic(auto, unfolding(crate::specs::Outer::outer_call))]
fn composed(
    s: Setting,
    k: Shape,
    table: &[u16],
    outer: &[u32],
    inner: &[u32],
    res: &mut [u32],
    work: &mut [u32],
) -> Answer
    ensures { left (outcome result) (res.new ∷ work.new ∷ []) ≡ outer_call k s
        table.now outer.now inner.now res.old work.old }
{
    let t = composed_check(s, k, table, outer, inner, res.len(), work.len())?;
    let m = k.components(t.z);
    let words = work_words(t.z);
    composition::compose(work, t, outer, m, inner, res, words, prime(s));
    Ok(0)
}

// An origin-fixing map substituted into a series, cut at order n.
pub fn substitute(
    s: Setting,
    table: &[u16],
    series: &[u32],
    map: &[u32],
    res: &mut [u32],
    work: &mut [u32],
) -> Answer
    ensures { left (outcome result) (res.new ∷ work.new ∷ []) ≡ substitute_call s
        table.now series.now map.now res.old work.old }
{
    composed(s, Shape::Series, table, series, map, res, work)
}

// The inner map, which must fix the origin, substituted into each component of the outer map, cut at
// order n.
pub fn compose(
    s: Setting,
    table: &[u16],
    outer: &[u32],
    inner: &[u32],
    res: &mut [u32],
    work: &mut [u32],
) -> Answer
    ensures { left (outcome result) (res.new ∷ work.new ∷ []) ≡ compose_call s
        table.now outer.now inner.now res.old work.old }
{
    composed(s, Shape::Map, table, outer, inner, res, work)
}
