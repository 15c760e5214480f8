// A slice that begins with the monomial table of given sizes: the codes of a position, and the position of two codes.
ghost use Rattle.std.specs.Prelude.{◌≡◌, ◌+◌, ◌-◌, ◌≤◌, ◌<◌, get_or};
ghost use Rattle.counts.specs.Tables.{Tabled};

use crate::Sizes;

// A slice that begins with the monomial table, and the sizes of that table.
#[derive(Clone, Copy)]
pub struct Table<'a> {
    pub z: Sizes,
    pub words: &'a [u16],
    ghost right: { Tabled z.n z.v z.count z.codes words.now },
}

impl Table<'_> {
    #[tactic(auto, using(crate::proofs::Tables::sections_in))]
    // C1 and C2 of the monomial at position q.
    pub fn codes_at(self, q: usize) -> (usize, usize)
        requires { (1 ≤ q) × (q ≤ self.z.count) }
        ensures { let t = self.entry in (result.0 ≡ get_or t.words.now (q - 1) 0)
            × (result.1 ≡ get_or t.words.now (t.z.count + (q - 1)) 0) × (result.0 < 65536) × (result.1 < 65536) }
    {
        let first = self.words[q - 1];
        let second = self.words[self.z.count + (q - 1)];
        (usize::from(first), usize::from(second))
    }

    #[tactic(auto, using(crate::proofs::Tables::sections_in))]
    // The position that the codes c1 and c2 lead to: the sum of their words in D1 and in D2.
    pub fn place(self, c1: usize, c2: usize) -> usize
        requires { (c1 < self.z.codes) × (c2 < self.z.codes) }
        ensures { let t = self.entry in result ≡ get_or t.words.now (t.z.count + t.z.count + c1) 0
            + get_or t.words.now (t.z.count + t.z.count + t.z.codes + c2) 0 }
    {
        let at = self.z.count + self.z.count;
        usize::from(self.words[at + c1]) + usize::from(self.words[at + self.z.codes + c2])
    }
}
