// The core of the bracket, on inputs that are checked.
#![tactic(auto)]

ghost use Rattle.std.specs.Prelude.{◌≡◌, ◌++◌, ◌+◌, ◌-◌, ◌*◌, ◌/◌, ◌<◌, drop, replicate};
ghost use Rattle.algebra.specs.Polynomial.{mul, scale, derivative, pair_bracket, bracket};
ghost use Rattle.series.specs.Image.{polynomial, image};
ghost use Rattle.product.specs.Core.{ProductIn};
ghost use Rattle.bracket.specs.Sums.{HalfIn, PairIn, PairsIn, Grown, Summed};
ghost use Rattle.bracket.specs.Sums.{derivative_in, left_after};

use counts::Table;
use product::{FIRST, Factor, LIST, ORDERS, RESULT, Source};
use series::write::clear;

// What a bracket is made of: two series, and the table for their sizes. The modulus is passed beside them: the
// compiler knows it as an argument, which makes the loop of the derivatives shorter.
#[derive(Clone, Copy)]
struct Operands<'a> {
    t: Table<'a>,
    a: &'a [u32],
    b: &'a [u32],
}

impl Operands<'_> {
    // Adds f times the derivative of a in variable i, times the derivative of b in variable j, to the
    // sums. The result holds the two derivatives, one after the other, and keeps that of a. Answers the
    // number of pairs so far.
    fn half(
        self,
        work: &mut [u32],
        res: &mut [u32],
        p: u32,
        i: usize,
        j: usize,
        f: u32,
        pairs: u64,
    ) -> u64
        requires { let t = self.t in HalfIn t.z.n t.z.v t.z.count t.z.codes p i j f t.words.now
            self.a.now self.b.now res.old work.old pairs }
        ensures grown { let x = self.entry in let z = x.t.z in Grown z.n z.v z.count p
            (mul (scale f (derivative i (polynomial z.n z.v x.a.now)))
            (derivative j (polynomial z.n z.v x.b.now)))
            work.old work.new pairs result 1 }
        ensures res_after { let x = self.entry in let z = x.t.z in res.new
            ≡ derivative_in z.n z.v z.count p f i (polynomial z.n z.v x.a.now) res.old }
    {
        let r = self.t.z.count + 1;
        derivation::derivative::derivative(self.b, self.t, j, 1, res, p);
        let ends = product::list::sort(work, self.t, res, ORDERS * r, LIST * r);
        derivation::derivative::derivative(self.a, self.t, i, f, res, p);
        product::copy(work, FIRST * r, res, r);
        let s = Source {
            at: FIRST * r,
            m: res[0] as usize,
        };
        product::rows(work, self.t, Factor::whole(self.t.z, &ends), s, pairs)
    }

    // Adds what pair k of the variables gives to the bracket: the derivative of a in its first variable
    // times that of b in its second, less the product with the variables exchanged; p - 1 stands for -1.
    fn pair(self, work: &mut [u32], res: &mut [u32], p: u32, k: usize, pairs: u64) -> u64
        requires { let t = self.t in PairIn t.z.n t.z.v t.z.count t.z.codes p k t.words.now
            self.a.now self.b.now res.old work.old pairs }
        ensures grown { let x = self.entry in let z = x.t.z in Grown z.n z.v z.count p
            (pair_bracket p (2 * k) (2 * k + 1) (polynomial z.n z.v x.a.now)
            (polynomial z.n z.v x.b.now))
            work.old work.new pairs result 2 }
        ensures res_after { let x = self.entry in let z = x.t.z in res.new
            ≡ derivative_in z.n z.v z.count p (p - 1) (2 * k + 1) (polynomial z.n z.v x.a.now) res.old }
    {
        let i = 2 * k;
        let j = 2 * k + 1;
        let f = p - 1;
        let more = self.half(work, res, p, i, j, 1, pairs);
        self.half(work, res, p, j, i, f, more)
    }

    // Adds what all pairs of the variables give to the bracket.
    fn sum_pairs(self, work: &mut [u32], res: &mut [u32], p: u32)
        requires { let t = self.t in PairsIn t.z.n t.z.v t.z.count t.z.codes p t.words.now
            self.a.now self.b.now res.old work.old }
        ensures summed { let x = self.entry in let z = x.t.z in Summed z.n z.v z.count p
            (bracket p (z.v / 2) (polynomial z.n z.v x.a.now) (polynomial z.n z.v x.b.now))
            work.old work.new }
        ensures res_after { let x = self.entry in let z = x.t.z in res.new
            ≡ left_after z.n z.v z.count p (z.v / 2) (polynomial z.n z.v x.a.now) res.old }
    {
        let h = self.t.z.v / 2;
        let mut pairs: u64 = 0;
        for k in 0..h {
            pairs = self.pair(work, res, p, k, pairs);
        }
    }
}

// The bracket of the series a and b (01, "The operations"), cut at order n, in result; the first
// `words` words of work are zero afterwards. All its products are added up in one set of sums,
// which are reduced once. The work slice has the regions of the product, with a derivative of a and
// one of b for the factors.
pub fn bracket(
    work: &mut [u32],
    t: Table,
    a: &[u32],
    b: &[u32],
    res: &mut [u32],
    words: usize,
    p: u32,
)
    requires product_in { ProductIn t.z.n t.z.v t.z.count t.z.codes words p t.words.now a.now b.now
        res.old work.old }
    requires lt_p { 1 < p }
    ensures res_after { let z = t.entry.z in res.new
        ≡ image p z.n z.v
        (bracket p (z.v / 2) (polynomial z.n z.v a.now) (polynomial z.n z.v b.now))
        ++ drop (z.count + 1) res.old }
    ensures work_after { work.new ≡ replicate words 0 ++ drop words work.old }
{
    let r = t.z.count + 1;
    product::list::fill_orders(work, t, FIRST * r, ORDERS * r);
    clear(work, 0, FIRST * r);
    let s = Operands { t, a, b };
    s.sum_pairs(work, res, p);
    product::compress(work, t.z.count, RESULT * r, p);
    product::copy(res, 0, &work[RESULT * r..ORDERS * r], r);
    clear(work, 0, words);
}
