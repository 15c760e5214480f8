// The samples of 01, starred or not, and the examples of its refusals, run through the public routines; what they
// return is printed. A sample that says where a monomial stands is seen in the words of the table and in a product
// or derivative that is this monomial. tests/cases/cases.py makes what it reads and what it must print.
#![tactic(auto)]

use std::io;

fn main(rt: HostRuntime) -> io::Result<()> {
    cases::run(&rt, true)
}
