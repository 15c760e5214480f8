// The comparison of what came out with what is stated.
ghost use Rattle.std.specs.Prelude.{◌≡◌, ◌≢◌, ℕ, ◌≤◌, ◌<◌, [], length, slice_index, EachIndex, OnOk, IfErr};
ghost use Rattle.stated.specs.Stated.{StatedAt};

use crate::outcome::Outcome;
use crate::slices::MARKER;
use std::fmt;

// What is stated of a call: its outcome, the words of the result that are needed, and how many of the work space.
#[derive(Clone, Copy)]
pub struct Claim<'a> {
    pub outcome: Outcome,
    pub result: &'a [u32],
    pub work: usize,
}

// A word that is not as it must be.
#[derive(Clone, Copy, PartialEq, Eq)]
pub struct OtherWord {
    pub at: usize,
    pub is: u32,
    pub stated: u32,
}

impl fmt::Display for OtherWord {
    fn fmt<W: fmt::Write>(&self, f: &mut fmt::Formatter<W>) -> fmt::Result {
        let OtherWord { at, is, stated } = *self;
        write!(f, "word {at} is {is}, stated {stated}")
    }
}

// What differs first: the outcome, of which the stated one is told, a word of the result or one of the work space.
#[derive(Clone, Copy, PartialEq, Eq)]
pub enum Difference {
    Outcome(Outcome),
    Result(OtherWord),
    Work(OtherWord),
}

impl fmt::Display for Difference {
    fn fmt<W: fmt::Write>(&self, f: &mut fmt::Formatter<W>) -> fmt::Result {
        match *self {
            Difference::Outcome(o) => write!(f, "stated {o}"),
            Difference::Result(w) => write!(f, "result {w}"),
            Difference::Work(w) => write!(f, "work {w}"),
        }
    }
}

// What word i of a buffer must hold, of which k words are needed and the first are stated.
fn wanted(stated: &[u32], k: usize, i: usize) -> u32
    ensures { StatedAt stated.now k i result }
{
    if k <= i {
        return MARKER;
    }
    if i < stated.len() {
        return stated[i];
    }
    0
}

// The first word that is not as it must be.
fn compare<F: Fn(usize) -> u32>(words: &[u32], wanted: F) -> Result<(), OtherWord>
    requires { F.IsAlwaysCallable wanted }
    ensures right { OnOk result (EachIndex words.now (λ i. F.post wanted i (slice_index words.now i))) }
    ensures before { IfErr result (λ w. (i : ℕ) → i < w.at → F.post wanted i (slice_index words.now i)) }
    ensures other { IfErr result (λ w. (w.at < length words.now) × (slice_index words.now w.at ≡ w.is)
        × F.post wanted w.at w.stated × (w.is ≢ w.stated)) }
{
    for (at, is) in words.iter().enumerate() {
        let stated = wanted(at);
        if *is != stated {
            return Err(OtherWord {
                at,
                is: *is,
                stated,
            });
        }
    }
    Ok(())
}

// All words of both buffers are compared, also those beyond the slices that the call had.
pub fn judge(said: Claim, came: Outcome, res: &[u32], work: &[u32]) -> Result<(), Difference>
    ensures outcome { OnOk result (came ≡ said.entry.outcome) }
    ensures words { OnOk result (EachIndex res.now (λ i.
        StatedAt said.entry.result.now (length said.entry.result.now) i (slice_index res.now i))) }
    ensures room { OnOk result (EachIndex work.now (λ i.
        StatedAt [] said.entry.work i (slice_index work.now i))) }
{
    if came != said.outcome {
        return Err(Difference::Outcome(said.outcome));
    }
    let stated = said.result;
    let k = stated.len();
    if let Err(w) = compare(res, |i| wanted(stated, k, i)) {
        return Err(Difference::Result(w));
    }
    let n = said.work;
    if let Err(w) = compare(work, |i| wanted(&[], n, i)) {
        return Err(Difference::Work(w));
    }
    Ok(())
}
