// The derivative of a series.
#![tactic(auto)]

pub mod derivative;
