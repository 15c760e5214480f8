// The lines of the sheet, each written by a writer behind what it has written already.
#![tactic(auto)]

mod row;
mod write;

ghost use Rattle.std.specs.Prelude.{◌≡◌, [], ◌+◌, ◌≤◌, ◌<◌, length, take, get_or};
ghost use Rattle.monomial.specs.Table.{monomials};
ghost use Rattle.answer.specs.Refusals.{number};
ghost use Rattle.text.specs.Writing.{Writes};
ghost use Rattle.text.specs.Text.{header_text, monomial_text, refused_text, Tabled};

use answer::Refusal;
use counts::Sizes;

// A buffer, and the index after what is written into it.
#[derive(Drop)]
pub struct Writer<'a> {
    pub out: &'a mut [u8],
    pub at: usize,
}

impl Writer<'_> {
    // 'The first line holds n, v and N, each after its word.'
    pub fn header(&mut self, z: Sizes)
        requires { (z.n < 100) × (z.v < 100) × (z.count < 10000) × (self.old.at + 64 ≤ length self.old.out.now) }
        ensures { Writes self.old (header_text z.n z.v z.count) self.new }
    {
        self.word(b"n ", z.n);
        self.word(b" v ", z.v);
        self.word(b" count ", z.count);
        self.byte(b'\n');
    }

    // 'Refused input prints `refused`, a space and the number.'
    pub fn refused(&mut self, r: Refusal)
        requires { self.old.at + 64 ≤ length self.old.out.now }
        ensures { Writes self.old (refused_text (number r)) self.new }
    {
        self.word(b"refused ", r.number() as usize);
        self.byte(b'\n');
    }

    // The line of the monomial with index j: 'position, the v exponents, C1, C2'. From words and sizes: a `Table` would
    // ask of callers that E be right too.
    pub fn monomial_line(&mut self, table: &[u16], z: Sizes, j: usize)
        requires { Tabled z.n z.v z.count table.now × (j < z.count) × (self.old.at + 64 ≤ length self.old.out.now) }
        ensures { Writes self.old (monomial_text z.n z.v (j + 1) (get_or (monomials z.n z.v) j [])) self.new }
    {
        let c1 = usize::from(table[j]);
        let c2 = usize::from(table[z.count + j]);
        self.row(z, j + 1, c1, c2);
    }

    // How many bytes more there is room for.
    pub fn room(&self) -> usize
        requires { self.now.at ≤ length self.now.out.now }
        ensures { result + self.now.at ≡ length self.now.out.now }
    {
        self.out.len() - self.at
    }

    // The bytes that are written.
    pub fn written(&self) -> &[u8]
        requires { self.now.at ≤ length self.now.out.now }
        ensures { result.now ≡ take self.now.at self.now.out.now }
    {
        &self.out[..self.at]
    }
}
