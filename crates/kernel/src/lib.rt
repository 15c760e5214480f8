// The public routines: they check their inputs in 01's order, then hand them to the cores. None has a
// requires: every number and every slice is accepted and answered.
#![tactic(auto)]

pub use brackets::bracket;
pub use checks::{prime, work_space};
pub use derivatives::derivative;
pub use inversions::invert;
pub use maps::{compose, substitute};
pub use products::product;
pub use sums::{difference, multiple, sum};
pub use tables::{build_table, check_table};
