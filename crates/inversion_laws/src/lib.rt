// The laws of inversion: one function for each law, which makes the calls that the law names and answers
// whether both finished. Of each the first clause says what the calls leave, the second the law.
#![tactic(auto)]

ghost use Rattle.std.specs.Prelude.{◌≡◌, true, [], ◌∷◌};
ghost use Rattle.checks.specs.Settings.{identity_in};
ghost use Rattle.checks.specs.Calls.{left};
ghost use Rattle.calls.specs.Calls.{needed_map};
ghost use Rattle.inversion_laws.specs.Laws.{undo_after_calls, undo_before_calls, only_after_calls, only_before_calls};

use answer::Setting;

// The inverse undoes a map after it: composed with the inverse g as outer map, f is the identity.
pub fn undo_after(
    s: Setting,
    table: &[u16],
    f: &[u32],
    g: &mut [u32],
    h: &mut [u32],
    work: &mut [u32],
) -> bool
    ensures work_after { left result (g.new ∷ h.new ∷ work.new ∷ []) ≡ undo_after_calls s
        table.now f.now g.old h.old work.old }
    ensures h_after { result ≡ true → needed_map s h.new ≡ identity_in s }
{
    let inverted = kernel::invert(s, table, f, g, work).is_ok();
    let after = kernel::compose(s, table, g, f, h, work).is_ok();
    inverted & after
}

// And before it: with the inverse g as inner map.
pub fn undo_before(
    s: Setting,
    table: &[u16],
    f: &[u32],
    g: &mut [u32],
    h: &mut [u32],
    work: &mut [u32],
) -> bool
    ensures work_after { left result (g.new ∷ h.new ∷ work.new ∷ []) ≡ undo_before_calls s
        table.now f.now g.old h.old work.old }
    ensures h_after { result ≡ true → needed_map s h.new ≡ identity_in s }
{
    let inverted = kernel::invert(s, table, f, g, work).is_ok();
    let before = kernel::compose(s, table, f, g, h, work).is_ok();
    inverted & before
}

// Only the inverse undoes a map after it: where f composed with h as outer map is the identity, h is the
// inverse.
pub fn only_after(
    s: Setting,
    table: &[u16],
    f: &[u32],
    h: &[u32],
    e: &mut [u32],
    g: &mut [u32],
    work: &mut [u32],
) -> bool
    ensures work_after { left result (e.new ∷ g.new ∷ work.new ∷ []) ≡ only_after_calls s
        table.now f.now h.now e.old g.old
        work.old }
    ensures h_value { result ≡ true → needed_map s e.new ≡ identity_in s
        → needed_map s h.now ≡ needed_map s g.new }
{
    let after = kernel::compose(s, table, h, f, e, work).is_ok();
    let inverted = kernel::invert(s, table, f, g, work).is_ok();
    after & inverted
}

// And before it: with h as inner map.
pub fn only_before(
    s: Setting,
    table: &[u16],
    f: &[u32],
    h: &[u32],
    e: &mut [u32],
    g: &mut [u32],
    work: &mut [u32],
) -> bool
    ensures work_after { left result (e.new ∷ g.new ∷ work.new ∷ []) ≡ only_before_calls s
        table.now f.now h.now e.old g.old
        work.old }
    ensures h_value { result ≡ true → needed_map s e.new ≡ identity_in s
        → needed_map s h.now ≡ needed_map s g.new }
{
    let before = kernel::compose(s, table, f, h, e, work).is_ok();
    let inverted = kernel::invert(s, table, f, g, work).is_ok();
    before & inverted
}
