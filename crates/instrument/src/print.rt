// What the program writes, line by line.
use crate::composing::Bench;
use answer::{Answer, Refusal};
use optics::terms::Term;
use optics::words::{has, place};
use std::fmt::InlineText;
use std::{fmt, io};

pub fn verdict(rt: &impl Print, what: &str, holds: bool) -> io::Result<()> {
    let word = if holds { "yes" } else { "no" };
    println!(rt; "{what}{word}")
}

// The series of a component of a map, from 0.
fn series(map: &[u32], component: usize) -> &[u32] {
    map.chunks_exact(57).nth(component).unwrap_or(&[])
}

// The longest term: other coefficients are shown shorter, and exponents are below 4.
const LONGEST: usize = "-500/30 x^3 a^3 y^3 b^3 d^3".len();

// Which terms of a series are shown.
#[derive(Clone, Copy)]
enum Shown<'a> {
    OfOrder(u32),
    // Those of monomials that another series does not have.
    NotIn(&'a [u32]),
}

// Terms, five to a row, in cells 14 wide. Printed as one value, they take one write and no heap.
#[derive(Clone, Copy)]
struct Rows<'t, 'm> {
    table: &'t [u16],
    series: &'m [u32],
    shown: Shown<'m>,
}

impl Rows<'_, '_> {
    // The term of a word, where that is an entry that is shown.
    fn term(&self, w: u32) -> Option<Term> {
        let term = Term::of(self.table, w)?;
        let is_shown = match self.shown {
            Shown::OfOrder(order) => term.order() == order,
            Shown::NotIn(other) => !place(w).is_some_and(|p| has(other, p)),
        };
        is_shown.then_some(term)
    }
}

impl fmt::Display for Rows<'_, '_> {
    fn fmt<W: fmt::Write>(&self, f: &mut fmt::Formatter<W>) -> fmt::Result {
        // A cell is padded only where another follows it in its row.
        let mut last = InlineText::<LONGEST>::new();
        let terms = self.series.iter().skip(1).filter_map(|w| self.term(*w));
        for (i, term) in terms.enumerate() {
            let cell = last.as_str();
            match i {
                0 => {}
                _ if i % 5 == 0 => write!(f, "{cell}\n           ")?,
                _ => write!(f, "{cell:<14}")?,
            }
            last = InlineText::of(term);
        }
        let cell = last.as_str();
        write!(f, "{cell}")
    }
}

impl<R: Print> Bench<'_, R> {
    // The component of a map, from 0, order by order.
    pub fn component(&self, map: &[u32], component: usize) -> io::Result<()> {
        for order in 1..4u32 {
            let rows = Rows {
                table: self.table,
                series: series(map, component),
                shown: Shown::OfOrder(order),
            };
            println!(self.rt; "  order {order}  {rows}")?;
        }
        Ok(())
    }

    // What the x of one map has and that of the other has not.
    pub fn missing(&self, map: &[u32], other: &[u32]) -> io::Result<()> {
        let rows = Rows {
            table: self.table,
            series: series(map, 0),
            shown: Shown::NotIn(series(other, 0)),
        };
        println!(self.rt; "  gone     {rows}")
    }
}

// The numbers of terms of the five components.
pub fn counts(rt: &impl Print, map: &[u32]) -> io::Result<()> {
    let count = |component| series(map, component).first().copied().unwrap_or(0);
    let (x, a, y, b, d) = (count(0), count(1), count(2), count(3), count(4));
    println!(rt; "terms in all: x {x}, a {a}, y {y}, b {b}, d {d}")
}

// Nothing for a call that finished. Of the place of 7 only the argument.
pub fn answer(rt: &impl Print, a: Answer) -> io::Result<()> {
    if let Err(r) = a {
        let number = r.number();
        let [place, _, _] = r.place();
        let at = match r {
            Refusal::TableDiffers(_) => "at word",
            _ => "at",
        };
        println!(rt; "refused {number} {at} {place}")?;
    }
    Ok(())
}
