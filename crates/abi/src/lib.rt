// The C interface: each routine of the kernel under a fixed name, its answer encoded in one number. A slice is
// a pointer and a length.
#![tactic(auto)]

mod calls;
mod sizes;
