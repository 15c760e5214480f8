// Calls that PARI/GP and a model have worked, and damaged inputs, run through the public routines and compared.
// tests/cases/cases.py makes what it reads and what it must print.
#![tactic(auto)]

use std::io;

fn main(rt: HostRuntime) -> io::Result<()> {
    cases::run(&rt, false)
}
