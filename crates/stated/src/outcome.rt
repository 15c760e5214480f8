// What a call answers, as numbers: the reported number, or the number of the refusal and its place.
ghost use Rattle.std.specs.Prelude.{◌<◌, length, OnOk};

use crate::scan::{Cursor, Malformed};
use answer::{Answer, Refusal};
use std::fmt;

// The place of 7 is three numbers, every other place is one, with zeros behind it. A text may state numbers that
// no refusal has.
#[derive(Clone, Copy, PartialEq, Eq)]
pub struct Refused {
    pub number: u32,
    pub place: [usize; 3],
}

impl From<Refusal> for Refused {
    fn from(r: Refusal) -> Refused {
        Refused {
            number: u32::from(r.number()),
            place: r.place(),
        }
    }
}

impl fmt::Display for Refused {
    fn fmt<W: fmt::Write>(&self, f: &mut fmt::Formatter<W>) -> fmt::Result {
        let number = self.number;
        let [a, b, c] = self.place;
        write!(f, "refused {number} at {a}")?;
        if number == 7 {
            write!(f, " {b} {c}")?;
        }
        Ok(())
    }
}

#[derive(Clone, Copy, PartialEq, Eq)]
pub struct Outcome(pub Result<u64, Refused>);

impl From<Answer> for Outcome {
    fn from(answer: Answer) -> Outcome {
        Outcome(answer.map_err(Refused::from))
    }
}

impl fmt::Display for Outcome {
    fn fmt<W: fmt::Write>(&self, f: &mut fmt::Formatter<W>) -> fmt::Result {
        match self.0 {
            Ok(k) => write!(f, "finished {k}"),
            Err(r) => write!(f, "{r}"),
        }
    }
}

impl<'a> Cursor<'a> {
    // `finished` and the reported number, or `refused` with its number and place.
    pub fn outcome(&mut self) -> Result<Outcome, Malformed>
        ensures { OnOk result (length self.new.rest.now < length self.old.rest.now) }
    {
        if self.name(b"finished").is_ok() {
            let k = self.number()?;
            return Ok(Outcome(Ok(u64::from(k))));
        }
        self.name(b"refused")?;
        let number = self.number()?;
        self.name(b"at")?;
        let mut place = [self.number()? as usize, 0, 0];
        if number == 7 {
            place[1] = self.number()? as usize;
            place[2] = self.number()? as usize;
        }
        Ok(Outcome(Err(Refused { number, place })))
    }
}
