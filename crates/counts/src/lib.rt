// The sizes that n and v determine (01, 'Series and their counting', 'The monomial table'), and a table of these sizes.
#![tactic(auto)]

mod table; // table.rt: a slice that begins with the monomial table

ghost use Rattle.std.specs.Prelude.{◌≡◌, cond, Some, None, ℕ, ◌+◌, ◌*◌, ◌^◌, ◌≤◌, length, get_or};
ghost use Rattle.monomial.specs.Count.{count, half, codes, Allowed, allowed};
ghost use Rattle.counts.specs.Sizes.{sizes_of};

pub use table::Table;

// The sizes that n and v fix: n and v themselves, N and E. Those of the slices follow from them.
#[derive(Clone, Copy, PartialEq, Eq)]
pub struct Sizes {
    pub n: usize,
    pub v: usize,
    pub count: usize,
    pub codes: usize,
}

impl Sizes {
    // The sizes for n and v, or none where n, v or N is not in 01's ranges.
    pub fn of(n: u32, v: u32) -> Option<Sizes>
        ensures { result ≡ cond (allowed n v) (Some (sizes_of n v)) None }
    {
        allowed_count(n, v)?;
        Some(table_sizes(n as usize, v as usize))
    }

    // h, the number of variables whose exponents make the first code.
    pub fn half(self) -> usize
        requires { self.v ≤ 8 }
        ensures { result ≡ half self.v }
    {
        half(self.v)
    }

    // T, the words of a table.
    pub fn table(self) -> usize
        requires { (self.count ≤ 43758) × (self.codes ≤ 14641) }
        ensures { result ≡ 2 * self.count + 2 * self.codes }
    {
        2 * self.count + 2 * self.codes
    }

    // N + 1, the words of a series. Where a slice is cut into series bodies write count + 1, which is as short and
    // asks no bound.
    pub fn series(self) -> usize
        requires { self.count ≤ 43758 }
        ensures { result ≡ self.count + 1 }
    {
        self.count + 1
    }

    // v (N + 1), the words of a map.
    pub fn map(self) -> usize
        requires { (self.v ≤ 8) × (self.count ≤ 43758) }
        ensures { result ≡ self.v * (self.count + 1) }
    {
        self.v * (self.count + 1)
    }
}

// h, the number of variables whose exponents make the first code.
pub fn half(v: usize) -> usize
    requires { v ≤ 8 }
    ensures { (result ≡ half v) × (result ≤ 4) }
{
    (v + 1) / 2
}

// Row v: how many monomials of order below s there are in v variables, for s from 0 to 11. Each
// call asks for several of these numbers, and a division takes longer than a look.
const COUNTS: [[u16; 12]; 9] = [
    [0, 1, 1, 1, 1, 1, 1, 1, 1, 1, 1, 1],
    [0, 1, 2, 3, 4, 5, 6, 7, 8, 9, 10, 11],
    [0, 1, 3, 6, 10, 15, 21, 28, 36, 45, 55, 66],
    [0, 1, 4, 10, 20, 35, 56, 84, 120, 165, 220, 286],
    [0, 1, 5, 15, 35, 70, 126, 210, 330, 495, 715, 1001],
    [0, 1, 6, 21, 56, 126, 252, 462, 792, 1287, 2002, 3003],
    [0, 1, 7, 28, 84, 210, 462, 924, 1716, 3003, 5005, 8008],
    [0, 1, 8, 36, 120, 330, 792, 1716, 3432, 6435, 11440, 19448],
    [0, 1, 9, 45, 165, 495, 1287, 3003, 6435, 12870, 24310, 43758],
];

// How many monomials of order below s there are in v variables, for s from 0 to 11.
pub fn counts_below(v: usize) -> [u16; 12]
    requires { v ≤ 8 }
    ensures { (length result ≡ 12) × (get_or result 0 0 ≡ 0) × ((i : ℕ) → i ≤ 10
        → (get_or result (i + 1) 0 ≡ count i v) × (get_or result (i + 1) 0 ≤ 43758)) }
{
    COUNTS[v]
}

// N, the number of monomials of order at most n in v variables (001, 1.14).
pub fn count(n: usize, v: usize) -> usize
    requires { (n ≤ 10) × (v ≤ 8) }
    ensures { (result ≡ count n v) × (result ≤ 43758) }
{
    COUNTS[v][n + 1] as usize
}

// b to the h. Not compiled into its callers: its loop would stand twice in the walk.
#[tactic(auto, using(crate::proofs::Counts::power_small))]
#[inline(never)]
pub fn power(b: usize, h: usize) -> usize
    requires { (b ≤ 11) × (h ≤ 4) }
    ensures { (result ≡ b ^ h) × (result ≤ 14641) }
{
    b.pow(h as u32)
}

// E, the number of words of D1 and of D2.
#[tactic(auto, using(crate::proofs::Counts::power_small), unfolding(monomial::specs::Count::codes))]
pub fn codes(n: usize, v: usize) -> usize
    requires { (n ≤ 10) × (v ≤ 8) }
    ensures { (result ≡ codes n v) × (result ≤ 14641) }
{
    power(n + 1, half(v))
}

// The sizes for n and v.
pub fn table_sizes(n: usize, v: usize) -> Sizes
    requires { Allowed n v }
    ensures { (result.n ≡ n) × (result.v ≡ v) × (result.count ≡ count n v) × (result.codes ≡ codes n v) }
{
    let count = count(n, v);
    let codes = codes(n, v);
    Sizes { n, v, count, codes }
}

// N, or none where n, v or N is not in 01's ranges. N is looked up only where n and v are small.
#[tactic(auto, using(std::proofs::lemmas::Bool::Decides::nat_tests), unfolding(monomial::specs::Count::allowed))]
pub fn allowed_count(n: u32, v: u32) -> Option<usize>
    ensures { result ≡ cond (allowed n v) (Some (count n v)) None }
{
    if n < 1 || n > 10 || v < 1 || v > 8 {
        return None;
    }
    let c = count(n as usize, v as usize);
    if c > 8008 {
        return None;
    }
    Some(c)
}
