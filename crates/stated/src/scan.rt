// Reading the text: blanks, names and numbers.
ghost use Rattle.std.specs.Prelude.{◌≡◌, ◌<◌, ◌≤◌, length, slice_index_or, OnOk};

use std::str;

// Where the text is malformed: how many bytes are left there.
#[derive(Clone, Copy, PartialEq, Eq)]
pub struct Malformed {
    pub left: usize,
}

// The text that is not read yet.
#[derive(Clone, Copy)]
pub struct Cursor<'a> {
    pub rest: &'a [u8],
}

fn is_blank(b: u8) -> bool {
    matches!(b, b' ' | b':' | b',' | b';')
}

impl<'a> Cursor<'a> {
    pub(crate) fn malformed(&self) -> Malformed {
        Malformed {
            left: self.rest.len(),
        }
    }

    // The next byte. The end of the text ends the line too.
    pub(crate) fn byte(&self) -> u8
        ensures { result ≡ slice_index_or self.now.rest.now 0 10 }
    {
        self.rest.first().copied().unwrap_or(b'\n')
    }

    // Goes on behind the next byte, where there is one.
    pub(crate) fn pass(&mut self)
        ensures { length self.new.rest.now ≤ length self.old.rest.now }
    {
        if let Some((_, rest)) = self.rest.split_first() {
            self.rest = rest;
        }
    }

    // Goes on at the first byte that passes the test, or at the end of the text.
    fn seek<P: Fn(u8) -> bool>(&mut self, found: P)
        requires { P.IsAlwaysCallable found }
        ensures { length self.new.rest.now ≤ length self.old.rest.now }
    {
        let n = self.rest.len();
        let k = self.rest.iter().position(|b| found(*b)).unwrap_or(n);
        self.rest = &self.rest[k..];
    }

    // Goes on behind blanks.
    pub(crate) fn skip(&mut self)
        ensures { length self.new.rest.now ≤ length self.old.rest.now }
    {
        self.seek(|b| !is_blank(b));
    }

    // Goes on behind the given name, which may stand behind blanks.
    pub(crate) fn name(&mut self, name: &[u8]) -> Result<(), Malformed>
        ensures { length self.new.rest.now ≤ length self.old.rest.now }
    {
        self.skip();
        self.rest = self.rest.strip_prefix(name).ok_or(self.malformed())?;
        Ok(())
    }

    // A number that fits 32 bits, behind blanks. It does not end the text.
    pub fn number(&mut self) -> Result<u32, Malformed>
        ensures { OnOk result (length self.new.rest.now < length self.old.rest.now) }
    {
        self.skip();
        let malformed = self.malformed();
        let k = self
            .rest
            .iter()
            .position(|b| !b.is_ascii_digit())
            .ok_or(malformed)?;
        let (digits, behind) = self.rest.split_at(k);
        let text = str::from_utf8(digits).ok().ok_or(malformed)?;
        let x = text.parse::<u32>().ok().ok_or(malformed)?;
        self.rest = behind;
        Ok(x)
    }

    // What stands beside the name that the text goes on with. Another name is malformed where it ends.
    pub fn one_of<T: Copy>(&mut self, names: &[(&[u8], T)]) -> Result<T, Malformed>
        ensures { OnOk result (length self.new.rest.now ≤ length self.old.rest.now) }
    {
        for (name, x) in names {
            if let Some(rest) = self.rest.strip_prefix(name) {
                self.rest = rest;
                return Ok(*x);
            }
        }
        self.seek(is_blank);
        Err(self.malformed())
    }

    // Nothing but blanks stands before the end of the line.
    pub fn line_end(&mut self) -> Result<(), Malformed>
        ensures { OnOk result (slice_index_or self.new.rest.now 0 10 ≡ 10) }
    {
        self.skip();
        if self.byte() != b'\n' {
            return Err(self.malformed());
        }
        Ok(())
    }
}
