// The C functions, one for each routine of the kernel. The setting's numbers come first, then the arguments in the
// kernel's order. What a call checks, answers and leaves is said in checks' specs/Calls, how an answer is encoded in
// encoding's specs/Encoding.
ghost use Rattle.std.specs.Prelude.{◌≡◌, [], ◌∷◌};
ghost use Rattle.checks.specs.Settings.{setting_of};
ghost use Rattle.checks.specs.Calls.{left, build_call, check_call, sum_call, difference_call, multiple_call};
ghost use Rattle.checks.specs.Calls.{product_call, derivative_call, bracket_call};
ghost use Rattle.checks.specs.Calls.{substitute_call, compose_call, invert_call};
ghost use Rattle.encoding.specs.Encoding.{encoded_left};

use answer::Setting;
use encoding::encode::encode;

// The setting of a call: the one place that makes it from the numbers.
pub fn setting(n: u32, v: u32) -> Setting
    ensures { result ≡ setting_of n v }
{
    Setting { n, v }
}

// Builds the table for n and v.
#[unsafe(no_mangle)]
pub extern "C" fn yigtrav_build_table(n: u32, v: u32, table: &mut [u16]) -> u64
    ensures { left result (table.new ∷ []) ≡ encoded_left (build_call (setting_of n v)
        table.old) }
{
    encode(kernel::build_table(setting(n, v), table))
}

// Checks a table.
#[unsafe(no_mangle)]
pub extern "C" fn yigtrav_check_table(n: u32, v: u32, table: &[u16]) -> u64
    ensures { left result [] ≡ encoded_left (check_call (setting_of n v) table.now) }
{
    encode(kernel::check_table(setting(n, v), table))
}

// The sum a + b.
#[unsafe(no_mangle)]
pub extern "C" fn yigtrav_sum(n: u32, v: u32, a: &[u32], b: &[u32], res: &mut [u32]) -> u64
    ensures { left result (res.new ∷ []) ≡ encoded_left (sum_call (setting_of n v)
        a.now b.now res.old) }
{
    encode(kernel::sum(setting(n, v), a, b, res))
}

// The difference a - b.
#[unsafe(no_mangle)]
pub extern "C" fn yigtrav_difference(n: u32, v: u32, a: &[u32], b: &[u32], res: &mut [u32]) -> u64
    ensures { left result (res.new ∷ []) ≡ encoded_left (difference_call (setting_of n v)
        a.now b.now res.old) }
{
    encode(kernel::difference(setting(n, v), a, b, res))
}

// c times a.
#[unsafe(no_mangle)]
pub extern "C" fn yigtrav_multiple(n: u32, v: u32, c: u32, a: &[u32], res: &mut [u32]) -> u64
    ensures { left result (res.new ∷ []) ≡ encoded_left (multiple_call (setting_of n v) c
        a.now res.old) }
{
    encode(kernel::multiple(setting(n, v), c, a, res))
}

// The product of a and b; the number of pairs is reported.
#[unsafe(no_mangle)]
pub extern "C" fn yigtrav_product(
    n: u32,
    v: u32,
    table: &[u16],
    a: &[u32],
    b: &[u32],
    res: &mut [u32],
    work: &mut [u32],
) -> u64
    ensures { left result (res.new ∷ work.new ∷ []) ≡ encoded_left (product_call (setting_of n v)
        table.now a.now b.now res.old work.old) }
{
    encode(kernel::product(setting(n, v), table, a, b, res, work))
}

// The derivative of a in variable k, from 1.
#[unsafe(no_mangle)]
pub extern "C" fn yigtrav_derivative(
    n: u32,
    v: u32,
    k: u32,
    table: &[u16],
    a: &[u32],
    res: &mut [u32],
) -> u64
    ensures { left result (res.new ∷ []) ≡ encoded_left (derivative_call (setting_of n v) k
        table.now a.now res.old) }
{
    encode(kernel::derivative(setting(n, v), k, table, a, res))
}

// The bracket of a and b.
#[unsafe(no_mangle)]
pub extern "C" fn yigtrav_bracket(
    n: u32,
    v: u32,
    table: &[u16],
    a: &[u32],
    b: &[u32],
    res: &mut [u32],
    work: &mut [u32],
) -> u64
    ensures { left result (res.new ∷ work.new ∷ []) ≡ encoded_left (bracket_call (setting_of n v)
        table.now a.now b.now res.old work.old) }
{
    encode(kernel::bracket(setting(n, v), table, a, b, res, work))
}

// The map put into the series.
#[unsafe(no_mangle)]
pub extern "C" fn yigtrav_substitute(
    n: u32,
    v: u32,
    table: &[u16],
    series: &[u32],
    map: &[u32],
    res: &mut [u32],
    work: &mut [u32],
) -> u64
    ensures { left result (res.new ∷ work.new ∷ []) ≡ encoded_left (substitute_call (setting_of n v)
        table.now series.now map.now res.old work.old) }
{
    encode(kernel::substitute(setting(n, v), table, series, map, res, work))
}

// The inner map put into each component of the outer one.
#[unsafe(no_mangle)]
pub extern "C" fn yigtrav_compose(
    n: u32,
    v: u32,
    table: &[u16],
    outer: &[u32],
    inner: &[u32],
    res: &mut [u32],
    work: &mut [u32],
) -> u64
    ensures { left result (res.new ∷ work.new ∷ []) ≡ encoded_left (compose_call (setting_of n v)
        table.now outer.now inner.now res.old work.old) }
{
    encode(kernel::compose(setting(n, v), table, outer, inner, res, work))
}

// The map that undoes the given one.
#[unsafe(no_mangle)]
pub extern "C" fn yigtrav_invert(
    n: u32,
    v: u32,
    table: &[u16],
    map: &[u32],
    res: &mut [u32],
    work: &mut [u32],
) -> u64
    ensures { left result (res.new ∷ work.new ∷ []) ≡ encoded_left (invert_call (setting_of n v)
        table.now map.now res.old work.old) }
{
    encode(kernel::invert(setting(n, v), table, map, res, work))
}
