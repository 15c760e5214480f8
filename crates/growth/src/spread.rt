// The listed map as parts by position.
ghost use Rattle.growth.specs.Spreading.{SpreadIn, Spread, AddListedIn, AddedListed};

use crate::Growth;
use product::{high, low};
use series::write::clear;
use walk::list_at;

impl Growth<'_> {
    // Adds the m listed coefficients, whose codes stand from word cs on, to the words of part at
    // their positions.
    fn add_listed(&self, part: &mut [u32], work: &[u32], cs: usize, m: usize)
        requires { let t = self.now.t in AddListedIn t.z.count t.z.codes cs m self.now.p t.words.now work.now part.old }
        ensures { let t = self.now.t in AddedListed t.z.count t.z.codes cs m self.now.p t.words.now
            work.now part.old part.new }
    {
        // by index: the codes and the coefficients would first be lent as two slices, in two lines more
        for j in 0..m {
            let c = work[cs + j];
            let q = self.t.place(low(c), high(c));
            let x = residue::add(part[q], work[cs + (self.t.z.count + 1) + j], self.p);
            part[q] = x;
        }
    }

    // Makes each part of result the coefficients of its listed component by position.
    pub fn spread(&self, res: &mut [u32], work: &[u32], ends: &[[u32; 11]; 8])
        requires { let t = self.now.t in SpreadIn t.z.n t.z.v t.z.count t.z.codes self.now.p
            t.words.now work.now ends.now res.old }
        ensures { let z = self.now.t.z in Spread z.n z.v z.count self.now.p work.now ends.now res.old res.new }
    {
        let z = self.t.z;
        let r = z.count + 1;
        clear(res, 0, z.v * r);
        for k in 0..z.v {
            let from = k * r;
            let to = from + r;
            let m = ends[k][z.n] as usize;
            self.add_listed(&mut res[from..to], work, list_at(z, k), m);
        }
    }
}
