// Rational numbers as residues, and residues as small fractions.
ghost use Rattle.std.specs.Prelude.{◌≡◌, ◌%◌, ◌<◌, MatchOption};
ghost use Rattle.residue.specs.Modulus.{Prime};
ghost use Rattle.optics.specs.Number.{Ratio};

use crate::setting;
use std::fmt;

// The p that numbers are counted modulo.
pub fn prime() -> u32
    ensures { (Prime result) × (result < 65536) }
{
    kernel::prime(setting())
}

// A coefficient as it is read and shown: top / bottom, or minus that.
#[derive(Clone, Copy, PartialEq, Eq)]
pub struct Fraction {
    pub top: u32,
    pub bottom: u32,
    pub negative: bool,
}

impl fmt::Display for Fraction {
    fn fmt<W: fmt::Write>(&self, f: &mut fmt::Formatter<W>) -> fmt::Result {
        let sign = if self.negative { "-" } else { "" };
        let top = self.top;
        match self.bottom {
            1 => write!(f, "{sign}{top}"),
            bottom => write!(f, "{sign}{top}/{bottom}"),
        }
    }
}

// The residue of a fraction, or none where its denominator is 0 modulo p.
pub fn ratio(f: Fraction, p: u32) -> Option<u32>
    requires { (Prime p) × (p < 65536) }
    ensures { MatchOption result (f.bottom % p ≡ 0)
        (λ c. (0 < f.bottom % p) × (c < p) × Ratio p c f.top f.bottom f.negative) }
{
    let t = residue::reduce(f.top as u64, p);
    let b = residue::reduce(f.bottom as u64, p);
    if b == 0 {
        return None;
    }
    let q = residue::multiply(t, residue::inverse(b, p), p);
    if f.negative {
        return Some(residue::negate(q, p));
    }
    Some(q)
}

// The fraction with a numerator up to 500 and a denominator up to 30 that has the residue c, or the residue
// itself. There is at most one such fraction, where 2 * 500 * 30 is below p; the first denominator that
// fits gives it in lowest terms.
pub fn shown(c: u32, p: u32) -> Fraction
    requires { (Prime p) × (p < 65536) }
    ensures { Ratio p c result.top result.bottom result.negative }
{
    let x = residue::reduce(c as u64, p);
    for bottom in 1..31 {
        let top = residue::multiply(x, bottom, p);
        if top <= 500 {
            return Fraction {
                top,
                bottom,
                negative: false,
            };
        }
        if p - top <= 500 {
            return Fraction {
                top: p - top,
                bottom,
                negative: true,
            };
        }
    }
    Fraction {
        top: x,
        bottom: 1,
        negative: false,
    }
}
