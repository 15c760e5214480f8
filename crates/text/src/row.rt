// The line of a monomial, from its two codes.
ghost use Rattle.std.specs.Prelude.{[], ◌∷◌, ◌≤◌, ◌<◌};
ghost use Rattle.monomial.specs.Table.{digits, monomial_of};
ghost use Rattle.text.specs.Text.{spaced, codes_text};
ghost use Rattle.text.specs.Writing.{Room, Writes};

use crate::Writer;
use counts::Sizes;

impl Writer<'_> {
    // The line at position p of the monomial with the codes c1 and c2: position, exponents, codes.
    pub(crate) fn row(&mut self, z: Sizes, p: usize, c1: usize, c2: usize)
        requires { (z.n ≤ 10) × (z.v ≤ 8) × Room self.old (codes_text z.n z.v p c1 c2) }
        ensures { Writes self.old (codes_text z.n z.v p c1 c2) self.new }
    {
        self.decimal(p);
        self.exponents(z, c1, c2);
        self.codes(c1, c2);
        self.byte(b'\n');
    }

    // One space and x.
    fn spaced(&mut self, x: usize)
        requires { Room self.old (spaced (x ∷ [])) }
        ensures { Writes self.old (spaced (x ∷ [])) self.new }
    {
        self.word(b" ", x);
    }

    // The k lowest digits of a code in the given base, the lowest first.
    fn digits(&mut self, base: usize, k: usize, code: usize)
        requires { (0 < base) × Room self.old (spaced (digits base k code)) }
        ensures { Writes self.old (spaced (digits base k code)) self.new }
    {
        let mut rest = code;
        for i in 0..k {
            self.spaced(rest % base);
            rest /= base;
        }
    }

    // The exponents of the monomial with the codes c1 and c2.
    fn exponents(&mut self, z: Sizes, c1: usize, c2: usize)
        requires { (z.n ≤ 10) × (z.v ≤ 8) × Room self.old (spaced (monomial_of z.n z.v c2 c1)) }
        ensures { Writes self.old (spaced (monomial_of z.n z.v c2 c1)) self.new }
    {
        let half = z.half();
        self.digits(z.n + 1, half, c1);
        self.digits(z.n + 1, z.v - half, c2);
    }

    fn codes(&mut self, c1: usize, c2: usize)
        requires { Room self.old (spaced (c1 ∷ c2 ∷ [])) }
        ensures { Writes self.old (spaced (c1 ∷ c2 ∷ [])) self.new }
    {
        self.spaced(c1);
        self.spaced(c2);
    }
}
