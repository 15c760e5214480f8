// Maps of ion optical elements as text: formulas such as `x = x + 1/2 a - 1/4 a d` read into maps, and the terms
// of maps shown. Coordinates: x and a, position and slope in the bending plane; y and b, the same
// across it; d, the relative deviation of the energy. No function but two of `number`, which ask for a
// prime, has a requires: an index out of range reads 0 and writes nothing.
#![tactic(auto)]

ghost use Rattle.std.specs.Prelude.{◌≡◌};
ghost use Rattle.optics.specs.Order.{order_3};

pub mod formula;
pub mod number;
pub mod terms;
pub mod words;

use answer::Setting;

// Order 3, five coordinates: 56 monomials.
pub fn setting() -> Setting
    ensures { result ≡ order_3 }
{
    Setting { n: 3, v: 5 }
}
