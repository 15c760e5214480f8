// The laws of substitution: one function for each law, which makes the calls that the law names and answers
// whether all of them finished. Of each the first clause says what the calls leave, the second the law.
#![tactic(auto)]

ghost use Rattle.std.specs.Prelude.{◌≡◌, true, [], ◌∷◌};
ghost use Rattle.checks.specs.Calls.{left};
ghost use Rattle.calls.specs.Calls.{needed_series};
ghost use Rattle.substitution_laws.specs.Laws.{twice_calls, sum_calls, product_calls};

use answer::Setting;

// Substituting f and then g is substituting their composition, f outer and g inner.
pub fn substitute_twice(
    s: Setting,
    table: &[u16],
    a: &[u32],
    f: &[u32],
    g: &[u32],
    once: &mut [u32],
    twice: &mut [u32],
    both: &mut [u32],
    whole: &mut [u32],
    work: &mut [u32],
) -> bool
    ensures work_after { left result
        (once.new ∷ twice.new ∷ both.new ∷ whole.new ∷ work.new ∷ [])
        ≡ twice_calls s table.now a.now f.now g.now once.old
        twice.old both.old whole.old work.old }
    ensures twice_after { result ≡ true → needed_series s twice.new ≡ needed_series s whole.new }
{
    let p = kernel::substitute(s, table, a, f, once, work).is_ok();
    let q = kernel::substitute(s, table, once, g, twice, work).is_ok();
    let r = kernel::compose(s, table, f, g, both, work).is_ok();
    let t = kernel::substitute(s, table, a, both, whole, work).is_ok();
    p & q & r & t
}

// Substituting into a sum is adding what is substituted into each.
pub fn substitute_sum(
    s: Setting,
    table: &[u16],
    a: &[u32],
    b: &[u32],
    f: &[u32],
    both: &mut [u32],
    whole: &mut [u32],
    first: &mut [u32],
    second: &mut [u32],
    apart: &mut [u32],
    work: &mut [u32],
) -> bool
    ensures work_after { left result (both.new ∷ whole.new ∷ first.new ∷ second.new
        ∷ apart.new ∷ work.new ∷ []) ≡ sum_calls s table.now a.now
        b.now f.now both.old whole.old first.old
        second.old apart.old work.old }
    ensures whole_after { result ≡ true → needed_series s whole.new ≡ needed_series s apart.new }
{
    let p = kernel::sum(s, a, b, both).is_ok();
    let q = kernel::substitute(s, table, both, f, whole, work).is_ok();
    let t = kernel::substitute(s, table, a, f, first, work).is_ok();
    let u = kernel::substitute(s, table, b, f, second, work).is_ok();
    let w = kernel::sum(s, first, second, apart).is_ok();
    p & q & t & u & w
}

// Substituting into a product is multiplying what is substituted into each.
pub fn substitute_product(
    s: Setting,
    table: &[u16],
    a: &[u32],
    b: &[u32],
    f: &[u32],
    both: &mut [u32],
    whole: &mut [u32],
    first: &mut [u32],
    second: &mut [u32],
    apart: &mut [u32],
    work: &mut [u32],
) -> bool
    ensures work_after { left result (both.new ∷ whole.new ∷ first.new ∷ second.new
        ∷ apart.new ∷ work.new ∷ []) ≡ product_calls s table.now a.now
        b.now f.now both.old whole.old first.old
        second.old apart.old work.old }
    ensures whole_after { result ≡ true → needed_series s whole.new ≡ needed_series s apart.new }
{
    let p = kernel::product(s, table, a, b, both, work).is_ok();
    let q = kernel::substitute(s, table, both, f, whole, work).is_ok();
    let x = kernel::substitute(s, table, a, f, first, work).is_ok();
    let y = kernel::substitute(s, table, b, f, second, work).is_ok();
    let z = kernel::product(s, table, first, second, apart, work).is_ok();
    p & q & x & y & z
}
