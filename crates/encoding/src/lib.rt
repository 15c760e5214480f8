// The answers of the C interface: each answer of the kernel as one number.
#![tactic(auto)]

pub mod encode;
