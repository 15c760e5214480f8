// The products of a walk: the product of a letter more as entries, and the positions by order.
#![tactic(auto)]

mod collect; // collect.rt: its entries by its pairs
pub mod positions; // positions.rt: the positions by order
pub mod power; // power.rt: one product
