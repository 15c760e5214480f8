// The lists of an inverse that grows by one order a turn.
#![tactic(auto)]

pub mod spread; // spread.rt: the listed map by position

ghost use Rattle.std.specs.Prelude.{◌≡◌, [], ◌∷◌, ℕ, ◌+◌, ◌*◌, ◌%◌, ◌<◌, ◌≤◌, length, get_or};
ghost use Rattle.linear.specs.Matrix.{element, at};
ghost use Rattle.walk.specs.Walking.{row};
ghost use Rattle.turn.specs.Vectors.{dot, word_at};
ghost use Rattle.growth.specs.Growth.{GrowIn, Grown, positions_of_order};
ghost use Rattle.growth.specs.Appending.{Behind, Carried};
ghost use Rattle.growth.specs.Steps.{AppendIn, One, AllIn};

use counts::{Sizes, Table};
use product::code_word;
use series::word::position;
use walk::list_at;

// What an inverse grows by: the table, the word of the work slice behind which the positions by order stand in
// upper halves, where those of each order begin, the matrix that makes new terms, and the modulus.
#[derive(Clone, Copy)]
pub struct Growth<'a> {
    pub t: Table<'a>,
    pub ps: usize,
    pub starts: &'a [u32],
    pub m: [[u32; 8]; 8],
    pub p: u32,
}

// Lists the coefficient c at position q as number m of the list at word cs, unless c is 0. Answers
// how many are listed then.
fn append(work: &mut [u32], t: Table, cs: usize, m: usize, q: usize, c: u32) -> usize
    requires { AppendIn t.z.count cs m q t.words.now work.old }
    ensures { One t.entry.words.now t.entry.z.count cs m q c work.old work.new result }
{
    if c == 0 {
        return m;
    }
    let (first, second) = t.codes_at(q);
    work[cs + m] = code_word(first, second);
    work[cs + (t.z.count + 1) + m] = c;
    m + 1
}

// The number of entries of each component up to an order above o is that up to order o.
fn carry(ends: &mut [[u32; 11]; 8], z: Sizes, o: usize)
    requires { (o ≤ z.n) × (z.n ≤ 10) × (z.v ≤ 8) × ((k : ℕ) → k < z.v → z.n < length (row ends.old k)) }
    ensures { Carried z.n z.v o ends.old ends.new }
{
    for k in 0..z.v {
        let e = ends[k][o];
        ends[k][o + 1..z.n + 1].fill(e);
    }
}

// `work`, `res` and `ends` are no struct: `grow` only reads res, and `spread` writes only it, which lending each says.
impl Growth<'_> {
    // Lists the numbers of y, the coefficients of the components at position q. Word o of row k of ends says how
    // many entries component k has.
    fn append_all(
        &self,
        work: &mut [u32],
        ends: &mut [[u32; 11]; 8],
        o: usize,
        q: usize,
        y: [u32; 8],
    )
        requires { let t = self.now.t in AllIn t.z.n t.z.v t.z.count t.z.codes o q t.words.now work.old ends.old y }
        ensures { let z = self.now.t.z in Behind z.n z.v z.count o (λ k x. at y k) (q * 65536 ∷ [])
            work.old work.new ends.old ends.new }
    {
        for k in 0..self.t.z.v {
            let m = ends[k][o] as usize;
            let e = append(work, self.t, list_at(self.t.z, k), m, q, y[k]);
            ends[k][o] = e as u32;
        }
    }

    // Lists m times the vector at each position of order o.
    fn append_order(&self, work: &mut [u32], res: &[u32], ends: &mut [[u32; 11]; 8], o: usize)
        requires { let t = self.now.t in GrowIn t.z.n t.z.v t.z.count t.z.codes self.now.p o
            self.now.ps self.now.m t.words.now res.now work.old ends.old self.now.starts.now }
        ensures { let z = self.now.t.z in Behind z.n z.v z.count o
            (λ k q. dot z.v (element self.now.m k) (word_at z.count res.now q) % self.now.p)
            (positions_of_order z.n z.v z.count o) work.old work.new ends.old ends.new }
    {
        for k in self.starts[o] as usize..self.starts[o + 1] as usize {
            let q = position(work[self.ps + 1 + k]);
            let x = turn::gather(res, self.t.z, q);
            let y = turn::applied(self.m, x, self.t.z.v, self.p);
            self.append_all(work, ends, o, q, y);
        }
    }

    // Puts the terms of order o of m times the map in result behind the lists, which have the orders
    // below.
    pub fn grow(&self, work: &mut [u32], res: &[u32], ends: &mut [[u32; 11]; 8], o: usize)
        requires { let t = self.now.t in GrowIn t.z.n t.z.v t.z.count t.z.codes self.now.p o
            self.now.ps self.now.m t.words.now res.now work.old ends.old self.now.starts.now }
        ensures { let z = self.now.t.z in Grown z.n z.v z.count self.now.p o self.now.m res.now
            work.old work.new ends.old ends.new }
    {
        self.append_order(work, res, ends, o);
        carry(ends, self.t.z, o);
    }
}
