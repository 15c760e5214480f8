// Which words are no images: refusals 7 and 8. `quick` says in one pass whether all is well, `check` finds the first
// fault.
#![tactic(auto)]

pub mod check;
pub mod quick;

ghost use Rattle.std.specs.Prelude.{◌<◌};

// What makes words an image: N, the last position, and p, which is above each coefficient. Both go by value, so that
// the compiler knows p where the caller does.
#[derive(Clone, Copy)]
pub struct Form {
    pub count: usize,
    pub p: u32,
    ghost small: { count < 65536 },
}
