// The words of a series: entries, each a position and a coefficient.
ghost use Rattle.std.specs.Prelude.{◌≡◌, ◌<◌};
ghost use Rattle.series.specs.Image.{entry, position, coefficient};

// The position of an entry.
pub fn position(w: u32) -> usize
    ensures { (result ≡ position w) × (result < 65536) }
{
    (w / 65536) as usize
}

// The coefficient of an entry.
pub fn coefficient(w: u32) -> u32
    ensures { (result ≡ coefficient w) × (result < 65536) }
{
    w % 65536
}

// The entry at position q with the coefficient c.
pub fn entry(q: usize, c: u32) -> u32
    requires q_bound { q < 65536 }
    requires c_bound { c < 65536 }
    ensures { result ≡ entry q c }
{
    (q as u32) * 65536 + c
}
