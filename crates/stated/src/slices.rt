// The words of a slice: reading them, and changing their width.
ghost use Rattle.std.specs.Prelude.{◌<◌, ◌≤◌, length, OnOk, IfOk};

use crate::scan::{Cursor, Malformed};

// What each word of result and work space holds before a call. No correct call writes it: counts are below 8,009,
// codes below 14,641 and entries above 65,536.
pub const MARKER: u32 = 50000;

// The words of a table as 32-bit words, as many as both slices have.
pub fn widen_all(table: &[u16], words: &mut [u32]) {
    for (w, t) in words.iter_mut().zip(table) {
        *w = u32::from(*t);
    }
}

// And back.
pub fn narrow_all(words: &[u32], table: &mut [u16]) {
    for (t, w) in table.iter_mut().zip(words) {
        *t = (*w % 65536) as u16;
    }
}

// p * 65,536 + c, where both fit 16 bits.
fn joined(c: u32, p: u32) -> Option<u32> {
    let c = u16::try_from(c).ok()?;
    let p = u16::try_from(p).ok()?;
    Some(u32::from(p) * 65536 + u32::from(c))
}

impl<'a> Cursor<'a> {
    // A word: a number, or c@p.
    fn word(&mut self) -> Result<u32, Malformed>
        ensures { OnOk result (length self.new.rest.now < length self.old.rest.now) }
    {
        let c = self.number()?;
        if self.byte() != b'@' {
            return Ok(c);
        }
        self.pass();
        let p = self.number()?;
        joined(c, p).ok_or(self.malformed())
    }

    // The items of a slice, up to the next name: a word at the next index, or /i, which goes on at index i.
    fn items(&mut self, words: &mut [u32]) -> Result<(), Malformed> {
        self.skip();
        let mut i = 0;
        let mut b = self.byte();
        while b == b'/' || b.is_ascii_digit() {
            if b == b'/' {
                self.pass();
                i = self.number()? as usize;
            } else {
                let word = self.word()?;
                if words.len() <= i {
                    return Err(self.malformed());
                }
                words[i] = word;
                i += 1;
            }
            self.skip();
            b = self.byte();
        }
        Ok(())
    }

    // The length of a slice, at most `most`, behind its name.
    pub fn room(&mut self, name: &[u8], most: usize) -> Result<usize, Malformed>
        ensures { IfOk result (λ k. k ≤ most) }
    {
        self.name(name)?;
        let k = self.number()? as usize;
        if most < k {
            return Err(self.malformed());
        }
        Ok(k)
    }

    // A slice: its name, its length and its first words. The others keep what they hold. Answers the part of that
    // length.
    pub fn slice<'w>(&mut self, name: &[u8], words: &'w mut [u32]) -> Result<&'w [u32], Malformed>
        ensures { IfOk result (λ part. length part.now ≤ length words.old) }
    {
        let len = self.room(name, words.len())?;
        let part = &mut words[..len];
        self.items(part)?;
        Ok(part)
    }
}
