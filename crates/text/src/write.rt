// Bytes and numbers written into a buffer.
ghost use Rattle.std.specs.Prelude.{[], ◌∷◌, ◌++◌};
ghost use Rattle.text.specs.Decimal.{decimal};
ghost use Rattle.text.specs.Writing.{Room, Writes};

use crate::Writer;

impl Writer<'_> {
    pub(crate) fn byte(&mut self, b: u8)
        requires { Room self.old (b ∷ []) }
        ensures { Writes self.old (b ∷ []) self.new }
    {
        self.out[self.at] = b;
        self.at += 1;
    }

    pub(crate) fn text(&mut self, text: &[u8])
        requires { Room self.old text.now }
        ensures { Writes self.old text.now self.new }
    {
        let end = self.at + text.len();
        self.out[self.at..end].copy_from_slice(text);
        self.at = end;
    }

    // x in decimal: the number without its last digit, then that digit.
    pub(crate) fn decimal(&mut self, x: usize)
        requires { Room self.old (decimal x) }
        ensures { Writes self.old (decimal x) self.new }
    {
        if x < 10 {
            self.byte((48 + x) as u8);
            return;
        }
        self.decimal(x / 10);
        self.byte((48 + x % 10) as u8);
    }

    // A word and the number after it.
    pub(crate) fn word(&mut self, word: &[u8], x: usize)
        requires { Room self.old (word.now ++ decimal x) }
        ensures { Writes self.old (word.now ++ decimal x) self.new }
    {
        self.text(word);
        self.decimal(x);
    }
}
