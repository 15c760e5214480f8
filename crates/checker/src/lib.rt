// The checker of the monomial table.
#![tactic(auto)]

mod check;

pub use check::first_difference;
