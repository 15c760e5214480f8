// The public routines on tables: building one, and checking one.
#![tactic(auto)]

mod building;
mod checking;

pub use building::build_table;
pub use checking::check_table;
