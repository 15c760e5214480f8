// Formulas read into a map, one to a line: the component's letter, ` = `, and terms with signs between them.
// A term is a coefficient (left out where it is 1), then letters, each with its exponent where that is
// not 1: `a = a - 3/2 d + 9/8 d^2`. Spaces say nothing.
use crate::number::{Fraction, prime, ratio};
use crate::setting;
use crate::words::{copy, position};

// Where the next digit goes: to the numerator, to the denominator, or to the exponent of a coordinate.
#[derive(Clone, Copy)]
enum Part {
    Numerator,
    Denominator,
    Exponent(usize),
}

// What is read of a term: the sign, the numerator, where there is one, the denominator, and the exponents.
#[derive(Clone, Copy)]
struct Term {
    negative: bool,
    top: Option<u32>,
    bottom: u32,
    exponents: [u32; 5],
    part: Part,
}

// The coordinate of a letter, from 0.
fn coordinate(letter: u8) -> Option<usize> {
    b"xaybd".iter().position(|l| *l == letter)
}

// A number with one more digit; numbers have at most four.
fn longer(x: u32, digit: u8) -> u32 {
    10 * (x % 1000) + u32::from(digit)
}

impl Term {
    fn new(negative: bool) -> Term {
        Term {
            negative,
            top: None,
            bottom: 1,
            exponents: [0; 5],
            part: Part::Numerator,
        }
    }

    // The term times a coordinate to the power k. Exponents are below 4.
    fn raise(&mut self, coordinate: usize, k: u32) {
        if let Some(e) = self.exponents.get_mut(coordinate) {
            *e = (*e % 4 + k % 4) % 4;
        }
    }

    // A coordinate counted once when its letter was read: an exponent k adds k - 1.
    fn digit(&mut self, digit: u8) {
        match self.part {
            Part::Numerator => self.top = Some(longer(self.top.unwrap_or(0), digit)),
            Part::Denominator => self.bottom = longer(self.bottom, digit),
            Part::Exponent(i) => self.raise(i, u32::from(digit.saturating_sub(1))),
        }
    }

    // One byte more. What is no digit, stroke or letter says nothing.
    fn read(&mut self, b: u8) {
        match b {
            b'0'..=b'9' => self.digit(b - b'0'),
            b'/' => {
                self.bottom = 0;
                self.part = Part::Denominator;
            }
            _ => {
                if let Some(i) = coordinate(b) {
                    self.raise(i, 1);
                    self.part = Part::Exponent(i);
                }
            }
        }
    }

    // The coefficient: 1 where no numerator is read.
    fn coefficient(self) -> Fraction {
        Fraction {
            top: self.top.unwrap_or(1),
            bottom: self.bottom,
            negative: self.negative,
        }
    }

    // Adds the term to a series, through the sum with the series that has only this entry. The series stays where
    // the denominator is 0 modulo p, so that there is no coefficient, and where the coefficient is 0 modulo p, which
    // is no entry: then the sum is refused.
    fn add(self, table: &[u16], series: &mut [u32]) {
        if self.exponents == [0; 5] {
            return;
        }
        let [x, a, y, b, d] = self.exponents;
        let p = position(
            table,
            x % 4 + 4 * (a % 4) + 16 * (y % 4),
            b % 4 + 4 * (d % 4),
        );
        let Some(c) = ratio(self.coefficient(), prime()) else {
            return;
        };
        let mut one = [0u32; 57];
        one[0] = 1;
        one[1] = 65536 * p + c;
        let mut total = [0u32; 57];
        if kernel::sum(setting(), series, &one, &mut total).is_ok() {
            copy(&total, series);
        }
    }
}

// Reads terms into a series, in the place of what it had. A sign begins the next term.
fn read_terms(table: &[u16], series: &mut [u32], text: &[u8]) {
    series.fill(0);
    let mut t = Term::new(false);
    for b in text {
        match *b {
            b'+' | b'-' => {
                t.add(table, series);
                t = Term::new(*b == b'-');
            }
            b => t.read(b),
        }
    }
    t.add(table, series);
}

// Reads a formula into its component of the map.
fn read_formula(table: &[u16], map: &mut [u32], text: &[u8]) {
    let mut sides = text.split(|b| *b == b'=');
    let (Some(left), Some(right)) = (sides.next(), sides.next()) else {
        return;
    };
    let Some(i) = left.iter().find_map(|b| coordinate(*b)) else {
        return;
    };
    if let Some(series) = map.chunks_exact_mut(57).nth(i) {
        read_terms(table, series, right);
    }
}

// Reads formulas into their components of the map. The other components stay.
pub fn read(table: &[u16], map: &mut [u32], text: &[u8]) {
    for formula in text.split(|b| *b == b'\n') {
        read_formula(table, map, formula);
    }
}

// The identity map.
pub fn identity(table: &[u16], map: &mut [u32]) {
    read(table, map, b"x = x\na = a\ny = y\nb = b\nd = d");
}
