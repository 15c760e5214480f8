// The checks that routines share: `room` (1 and 2), `inputs` (6 and 7) and `constants` (8). A routine puts its own
// checks between and after them.
ghost use Rattle.std.specs.Prelude.{◌≡◌, length};
ghost use Rattle.answer.specs.Refusals.{verdict};
ghost use Rattle.checks.specs.Room.{room, Decided};
ghost use Rattle.checks.specs.Inputs.{kind_of, components_of, arguments, images, inputs, constants};
ghost use Rattle.checks.specs.Inputs.{ImagesIn, InputsIn, ConstantsIn, Tested};

use crate::checks::table_check;
use crate::sizes::{prime, sizes};
use crate::{Argument, Kind, Shape, Slice};
use answer::{Check, Refusal, Setting};
use counts::{Sizes, Table};
use faults::Form;
use faults::check::constant_check;
use faults::quick::image_check;

// 1, then 2: each slice by its kind and its length.
#[tactic(auto, unfolding(crate::specs::Room::room))]
pub fn room(s: Setting, slices: &[Slice]) -> Result<Sizes, Refusal>
    ensures { Decided s (room s slices.now) result }
{
    let z = sizes(s)?;
    for (i, (kind, words)) in slices.iter().enumerate() {
        if *words < kind.needed(z) {
            return Err(Refusal::SliceTooShort(i + 1));
        }
    }
    Ok(z)
}

impl Shape {
    // The kind of a slice of this shape.
    pub fn kind(self) -> Kind
        ensures { result ≡ kind_of self }
    {
        match self {
            Shape::Series => Kind::Series,
            Shape::Map => Kind::Map,
        }
    }

    // The components of an argument.
    pub fn components(self, z: Sizes) -> usize
        ensures { result ≡ components_of z self }
    {
        match self {
            Shape::Series => 1,
            Shape::Map => z.v,
        }
    }
}

// 7: the images of one argument or of two.
pub fn images(s: Setting, z: Sizes, first: Argument, second: Option<Argument>) -> Check
    requires { ImagesIn s z (arguments first second) }
    ensures { verdict result ≡ images s 1 (arguments first.entry second.entry) }
{
    let f = Form {
        count: z.count,
        p: prime(s),
    };
    let (k, a) = first;
    let a = (a, k.components(z));
    match second {
        Some((m, b)) => image_check(&[a, (b, m.components(z))], f),
        None => image_check(&[a], f),
    }
}

// 6, then 7: the table, then the images of one argument or of two. What passed is answered as a table.
#[tactic(auto, unfolding(crate::specs::Inputs::inputs))]
pub fn inputs<'a>(
    s: Setting,
    z: Sizes,
    t: &'a [u16],
    first: Argument,
    second: Option<Argument>,
) -> Result<Table<'a>, Refusal>
    requires { InputsIn s z (length t.now) (arguments first second) }
    ensures { Tested s (inputs s t.now (arguments first.entry second.entry)) t.now result }
{
    table_check(t, z)?;
    images(s, z, first, second)?;
    Ok(Table { z, words: t })
}

// 8: the first component of a map that has a constant. The map has passed 7, as some argument k.
#[tactic(auto, unfolding(crate::specs::Inputs::constants))]
pub fn constants(s: Setting, z: Sizes, map: &[u32]) -> Check
    requires { ConstantsIn s z map.now }
    ensures { verdict result ≡ constants s map.now }
{
    constant_check(map, z.v, z.count)
}
