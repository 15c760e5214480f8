// Substitution of an origin-fixing map into series, which all share one walk, on inputs that are
// checked already.
#![tactic(auto)]

pub mod setup; // setup.rt: what a walk finds in the work slice
pub mod parts; // parts.rt: one part of N + 1 words for each outer series

ghost use Rattle.std.specs.Prelude.{◌≡◌, ◌++◌, ℕ, ◌+◌, ◌*◌, drop, replicate};
ghost use Rattle.algebra.specs.Substitution.{substitute};
ghost use Rattle.monomial.specs.Enumeration.{upto};
ghost use Rattle.series.specs.Image.{component, polynomial, map_of, image};
ghost use Rattle.composition.specs.Core.{ComposeIn};

use counts::Table;
use parts::{begin_sums, pack_all};
use series::write::clear;
use setup::{list_all, prepare};
use walk::{Plan, walk};

// The map `inner` substituted into each of the series in outer, cut at order n, in result; the
// first `words` words of work are zero afterwards.
pub fn compose(
    work: &mut [u32],
    t: Table,
    outer: &[u32],
    components: usize,
    inner: &[u32],
    res: &mut [u32],
    words: usize,
    p: u32,
)
    requires { ComposeIn t.z.n t.z.v t.z.count t.z.codes components words p t.words.now outer.now inner.now
        res.old work.old }
    ensures res_after { let z = t.entry.z in res.new
        ≡ upto (λ i. image p z.n z.v
        (substitute (polynomial z.n z.v (component z.n z.v i outer.now))
        (map_of z.n z.v inner.now))) components
        ++ drop (components * (z.count + 1)) res.old }
    ensures work_after { work.new ≡ replicate words 0 ++ drop words work.old }
{
    // `components` goes with `outer`, and is not read off it: it is the number of parts of result too
    let at = prepare(work, t, outer, components);
    let ends = list_all(work, t, inner, at.columns.orders);
    begin_sums(res, outer, t.z.count, components);
    let s = Plan {
        t,
        outer,
        components,
        ends: &ends,
        starts: &at.starts,
        columns: at.columns,
        cut: t.z.n,
        wanted: 0,
        least: 0,
        p,
    };
    walk(work, res, &s, 1, 0, at.top, t.z.n);
    pack_all(res, t.z.count, components);
    clear(work, 0, words);
}
