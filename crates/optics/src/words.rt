// Words of slices. An index beyond the end reads 0.
ghost use Rattle.std.specs.Prelude.{◌≡◌, ◌/◌, ◌<◌, MatchOption};

fn entry(table: &[u16], i: usize) -> u32
    ensures { result < 65536 }
{
    match table.get(i) {
        Some(w) => u32::from(*w),
        None => 0,
    }
}

// The rows of the table for order 3 and five variables: C1 from word 0, C2 from word 56, D1 from word 112, D2
// from word 176. Here the position of the monomial with the codes c1 and c2.
pub fn position(table: &[u16], c1: u32, c2: u32) -> u32
    ensures { result < 65536 }
{
    let first = entry(table, 112 + (c1 as usize));
    let second = entry(table, 176 + (c2 as usize));
    (first + second) % 65536
}

// The codes of a position: C1 and C2.
pub(crate) fn codes(table: &[u16], position: u32) -> (u32, u32) {
    let p = position as usize;
    (entry(table, p.saturating_sub(1)), entry(table, p + 55))
}

// The position of an entry of a series; a word that is none has no position.
pub fn place(w: u32) -> Option<u32>
    ensures { MatchOption result (w < 65536) (λ p. (0 < p) × (p ≡ w / 65536)) }
{
    match w / 65536 {
        0 => None,
        p => Some(p),
    }
}

// Copies the words that both slices have.
pub fn copy(from: &[u32], to: &mut [u32]) {
    let k = from.len().min(to.len());
    to[..k].copy_from_slice(&from[..k]);
}

pub fn is_zero(s: &[u32]) -> bool {
    s.iter().all(|w| *w == 0)
}

// Whether a series has an entry at a position.
pub fn has(series: &[u32], position: u32) -> bool {
    series.iter().skip(1).any(|w| place(*w) == Some(position))
}

// Exchanges two words of a table.
pub fn exchange(table: &mut [u16], i: usize, j: usize) {
    if i < table.len() && j < table.len() {
        table.swap(i, j);
    }
}
