// Composition and inversion with work space of their own. A refusal is printed.
ghost use Rattle.std.specs.Prelude.{◌≡◌, ◌↔◌, IsTrue, IfOk, replicate};
ghost use Rattle.instrument.specs.Composed.{composed};

use crate::print::answer;
use optics::setting;
use optics::words::copy;
use std::io;

// The table of the setting, and where a refusal and what is asked for are printed.
#[derive(Drop)]
pub struct Bench<'a, R> {
    pub rt: &'a R,
    pub table: &'a [u16],
}

impl<R: Print> Bench<'_, R> {
    pub fn compose(&self, outer: &[u32], inner: &[u32], res: &mut [u32]) -> io::Result<()>
        ensures { res.new ≡ composed self.now.table.now outer.now inner.now res.old }
    {
        let mut work = [0u32; 1019];
        let came = kernel::compose(setting(), self.table, outer, inner, res, &mut work);
        answer(self.rt, came)
    }

    // The map followed by an element.
    pub fn append(&self, element: &[u32], map: &mut [u32]) -> io::Result<()> {
        let mut result = [0u32; 285];
        self.compose(element, map, &mut result)?;
        copy(&result, map);
        Ok(())
    }

    // The inverse of a map.
    pub fn undo(&self, map: &[u32], res: &mut [u32]) -> io::Result<()> {
        let mut work = [0u32; 1019];
        answer(
            self.rt,
            kernel::invert(setting(), self.table, map, res, &mut work),
        )
    }

    // Whether one map after another is the third one, word by word.
    pub fn composes_to(&self, outer: &[u32], inner: &[u32], map: &[u32]) -> io::Result<bool>
        ensures { IfOk result (λ b. IsTrue b
            ↔ (composed self.now.table.now outer.now inner.now (replicate 285 0) ≡ map.now)) }
    {
        let mut result = [0u32; 285];
        self.compose(outer, inner, &mut result)?;
        Ok(&result[..] == map)
    }
}
