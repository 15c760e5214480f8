// The public routines on sums; sum and difference share their file.
#![tactic(auto)]

mod multiples;
mod sums;

pub use multiples::multiple;
pub use sums::{difference, sum};
