// The inverse of an origin-fixing map, on inputs that are checked already: a map that undoes it up
// to one order more after each turn. It stands listed by order in the work slice, where its terms
// of a new order are put behind the others, and is written as images in the end.
#![tactic(auto)]

ghost use Rattle.std.specs.Prelude.{◌≡◌, ◌++◌, ◌+◌, ◌*◌, drop, replicate};
ghost use Rattle.inversion.specs.Inverse.{inverse};
ghost use Rattle.composition.specs.Setup.{RegionsAt};
ghost use Rattle.iteration.specs.Core.{InvertIn};
ghost use Rattle.iteration.specs.Turning.{Task, TurnIn, Raised, TurnsMade};

use composition::parts::pack_all;
use composition::setup::prepare;
use counts::Table;
use growth::Growth;
use series::write::clear;
use substitution::marks::Columns;
use walk::{Plan, walk};

// What stays the same from turn to turn: the map, where the orders and the series 1 stand in the
// work slice, and what its inverse grows by: minus the inverse of its linear part among them.
#[derive(Drop)]
struct Turns<'m, 'g> {
    map: &'m [u32],
    orders: usize,
    top: usize,
    g: Growth<'g>,
    ghost regions: { RegionsAt g.t.z.n g.t.z.v g.t.z.count orders g.ps top },
}

// `work`, `res` and `ends` are no struct: `raise` only reads ends, and `grow` only reads res, which lending each says.
impl Turns<'_, '_> {
    // Makes result minus the identity, plus the listed map substituted into the terms of order 2 or
    // more of the map, by position. Only the terms of order cut are wanted.
    fn raise(&self, work: &mut [u32], res: &mut [u32], ends: &[[u32; 11]; 8], cut: usize)
        requires { TurnIn self.now.g.t.z.n self.now.g.t.z.v self.now.g.t.z.count self.now.g.t.z.codes cut
            self.now.g.p self.now.g.t.words.now self.now.map.now self.now.g.starts.now ends.now res.old work.old }
        ensures { Raised self.now.g.t.z.n self.now.g.t.z.v self.now.g.t.z.count self.now.g.t.z.codes cut
            self.now.g.p self.now.g.t.words.now self.now.map.now self.now.g.starts.now ends.now
            res.old res.new work.old work.new }
    {
        let Growth { t, starts, p, .. } = self.g;
        turn::start(res, t, p);
        let columns = Columns {
            orders: self.orders,
            marks: self.g.ps,
        };
        let s = Plan {
            t,
            outer: self.map,
            components: t.z.v,
            ends,
            starts,
            columns,
            cut,
            wanted: cut,
            least: 2,
            p,
        };
        walk(work, res, &s, 1, 0, self.top, cut);
    }

    // One turn: from a listed map that undoes the given one up to order cut - 1 to one that does up
    // to order cut. The matrix times what `raise` makes is the new map, whose terms below order cut
    // are listed already.
    fn turn(&self, work: &mut [u32], res: &mut [u32], ends: &mut [[u32; 11]; 8], cut: usize)
        requires task { Task self.now.g.t.z.n self.now.g.t.z.v self.now.g.t.z.count self.now.g.t.z.codes
            self.now.g.p self.now.g.m self.now.g.t.words.now self.now.map.now }
        requires turn_in { TurnIn self.now.g.t.z.n self.now.g.t.z.v self.now.g.t.z.count
            self.now.g.t.z.codes cut self.now.g.p self.now.g.t.words.now self.now.map.now self.now.g.starts.now
            ends.old res.old work.old }
        ensures { TurnsMade self.now.g.t.z.n self.now.g.t.z.v self.now.g.t.z.count self.now.g.t.z.codes cut
            self.now.g.p self.now.g.t.words.now self.now.map.now self.now.g.starts.now ends.new
            res.old res.new work.old work.new }
    {
        self.raise(work, res, ends, cut);
        self.g.grow(work, res, ends, cut);
    }

    // All turns, to the orders from 1 to n.
    fn all(&self, work: &mut [u32], res: &mut [u32], ends: &mut [[u32; 11]; 8])
        requires task { Task self.now.g.t.z.n self.now.g.t.z.v self.now.g.t.z.count self.now.g.t.z.codes
            self.now.g.p self.now.g.m self.now.g.t.words.now self.now.map.now }
        requires turn_in { TurnIn self.now.g.t.z.n self.now.g.t.z.v self.now.g.t.z.count
            self.now.g.t.z.codes 1 self.now.g.p self.now.g.t.words.now self.now.map.now self.now.g.starts.now
            ends.old res.old work.old }
        ensures { TurnsMade self.now.g.t.z.n self.now.g.t.z.v self.now.g.t.z.count self.now.g.t.z.codes
            self.now.g.t.z.n self.now.g.p self.now.g.t.words.now self.now.map.now self.now.g.starts.now ends.new
            res.old res.new work.old work.new }
    {
        for cut in 1..=self.g.t.z.n {
            self.turn(work, res, ends, cut);
        }
    }
}

// The inverse of the map `map` in result, m being the inverse of its linear part; the first `words`
// words of work are zero afterwards.
pub fn invert(
    work: &mut [u32],
    t: Table,
    map: &[u32],
    res: &mut [u32],
    words: usize,
    m: [[u32; 8]; 8],
    p: u32,
)
    requires { InvertIn t.z.n t.z.v t.z.count t.z.codes words p m t.words.now map.now res.old work.old }
    ensures res_after { let z = t.entry.z in res.new
        ≡ inverse p z.n z.v map.now ++ drop (z.v * (z.count + 1)) res.old }
    ensures work_after { work.new ≡ replicate words 0 ++ drop words work.old }
{
    let at = prepare(work, t, map, t.z.v);
    let neg = turn::negated(m, p);
    let g = Growth {
        t,
        ps: at.columns.marks,
        starts: &at.starts,
        m: neg,
        p,
    };
    let turns = Turns {
        map,
        orders: at.columns.orders,
        top: at.top,
        g,
    };
    let mut ends = [[0; 11]; 8];
    turns.all(work, res, &mut ends);
    g.spread(res, work, &ends);
    pack_all(res, t.z.count, t.z.v);
    clear(work, 0, words);
}
