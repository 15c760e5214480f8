// The elements, each with its formulas to order 3, and chains of them. The momentum is the square root of
// 1 + d, so its part along the axis is R = sqrt(1 + d - a^2 - b^2).
use crate::composing::Bench;
use optics::formula::{identity, read};
use std::io;

#[derive(Clone, Copy)]
pub enum Element {
    // A straight line: x grows by a / R on each unit of length, y by b / R.
    Drift,
    // The magnet is a sector of 90 degrees with a uniform field, which turns the velocity: with u = 1 + x - R
    // for x it rotates (u, a) by its angle, and y grows by b times the angle that the path turns. The face
    // goes from x to u, and from y to y + b asin(a / sqrt(1 + d - b^2)); behind the rotation it is undone.
    Face,
    // 11/7 stands for the arc of the reference path.
    Rotation,
    FaceUndone,
    // A thin sextupole and octupole. Their strengths are those that cancel a^2 and a^3 in x at the collector slit.
    Corrector,
    // A short Wien filter: crossed fields whose kick 3 (1 / sqrt(1 + d) - 1) depends on the energy only. Its
    // strength cancels d in x at the collector slit.
    Filter,
}

impl Element {
    fn title(self) -> &'static str {
        match self {
            Element::Drift => "drift, length 1/2",
            Element::Face => "magnet, sector of 90 degrees: face, rotation, face undone; the face",
            Element::Rotation => "magnet; the rotation",
            Element::FaceUndone => "magnet; the face undone",
            Element::Corrector => "corrector, thin sextupole and octupole",
            Element::Filter => "energy filter, thin Wien filter",
        }
    }

    // A coordinate without a formula passes unchanged. The face undone is the inverse of the face.
    fn formulas(self) -> &'static str {
        match self {
            Element::Drift => {
                "  x = x + 1/2 a - 1/4 a d + 1/4 a^3 + 1/4 a b^2 + 3/16 a d^2
  y = y + 1/2 b - 1/4 b d + 1/4 a^2 b + 1/4 b^3 + 3/16 b d^2"
            }
            Element::Face | Element::FaceUndone => {
                "  x = x - 1/2 d + 1/2 a^2 + 1/2 b^2 + 1/8 d^2 - 1/4 a^2 d - 1/4 b^2 d - 1/16 d^3
  y = y + a b - 1/2 a b d"
            }
            Element::Rotation => {
                "  x = a
  a = - x
  y = y + 11/7 b"
            }
            Element::Corrector => {
                "  a = a + 4/3 x^2 - 4/3 y^2 + 256/81 x^3 - 256/27 x y^2
  b = b - 8/3 x y - 256/27 x^2 y + 256/81 y^3"
            }
            Element::Filter => "  a = a - 3/2 d + 9/8 d^2 - 15/16 d^3",
        }
    }

    pub fn show(self, rt: &impl Print) -> io::Result<()> {
        let title = self.title();
        let formulas = self.formulas();
        println!(rt; "{title}\n{formulas}")
    }
}

impl<R: Print> Bench<'_, R> {
    fn element(&self, e: Element) -> io::Result<[u32; 285]> {
        let mut map = [0u32; 285];
        identity(self.table, &mut map);
        read(self.table, &mut map, e.formulas().as_bytes());
        if let Element::FaceUndone = e {
            let mut back = [0u32; 285];
            self.undo(&map, &mut back)?;
            return Ok(back);
        }
        Ok(map)
    }

    // The elements, one after the other.
    pub fn chain(&self, map: &mut [u32], elements: &[Element]) -> io::Result<()> {
        identity(self.table, map);
        for e in elements {
            let one = self.element(*e)?;
            self.append(&one, map)?;
        }
        Ok(())
    }
}
