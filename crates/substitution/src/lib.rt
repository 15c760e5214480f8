// Substitution of a map into series, by a walk over the beginnings of their monomials.
#![tactic(auto)]

pub mod marks; // marks.rt: which monomials are beginnings, and the steps from one to the next
pub mod accumulate; // accumulate.rt: sums kept by position
