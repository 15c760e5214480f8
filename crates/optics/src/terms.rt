// The terms of a series, shown such as `-1/4 a^2 d`.
ghost use Rattle.std.specs.Prelude.{◌≤◌, ◌<◌, MatchOption};

use crate::number::{Fraction, prime, shown};
use crate::words::{codes, place};
use std::fmt;

// A coefficient, and the exponents of x, a, y, b and d.
#[derive(Clone, Copy, PartialEq, Eq)]
pub struct Term {
    pub coefficient: Fraction,
    pub exponents: [u32; 5],
}

impl Term {
    // The term of a word of a series, where that is an entry. The digits of its codes in base 4 are the exponents.
    pub fn of(table: &[u16], w: u32) -> Option<Term>
        ensures { MatchOption result (w < 65536) (λ t. 65536 ≤ w) }
    {
        let (c1, c2) = codes(table, place(w)?);
        Some(Term {
            coefficient: shown(w % 65536, prime()),
            exponents: [c1 % 4, c1 / 4 % 4, c1 / 16 % 4, c2 % 4, c2 / 4 % 4],
        })
    }

    pub fn order(self) -> u32
        ensures { result < 16 }
    {
        let [x, a, y, b, d] = self.exponents;
        x % 4 + a % 4 + y % 4 + b % 4 + d % 4
    }
}

impl fmt::Display for Term {
    fn fmt<W: fmt::Write>(&self, f: &mut fmt::Formatter<W>) -> fmt::Result {
        let coefficient = self.coefficient;
        write!(f, "{coefficient}")?;
        for (letter, e) in "xaybd".chars().zip(self.exponents) {
            match e {
                0 => {}
                1 => write!(f, " {letter}")?,
                _ => write!(f, " {letter}^{e}")?,
            }
        }
        Ok(())
    }
}
