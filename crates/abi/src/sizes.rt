// The sizes that a caller allocates, 0 where the setting is out of range.
ghost use Rattle.std.specs.Prelude.{◌≡◌};
ghost use Rattle.monomial.specs.Count.{count, words, allowed};
ghost use Rattle.answer.specs.Sizes.{work_words};
ghost use Rattle.encoding.specs.Encoding.{sized};

use crate::calls::setting;
use counts::Sizes;

// N, the number of monomials.
#[unsafe(no_mangle)]
pub extern "C" fn yigtrav_count(n: u32, v: u32) -> u64
    ensures { result ≡ sized (allowed n v) (count n v) }
{
    Sizes::of(n, v).map_or(0, |z| z.count as u64)
}

// T, the 16-bit words of a table.
#[unsafe(no_mangle)]
pub extern "C" fn yigtrav_table_words(n: u32, v: u32) -> u64
    ensures { result ≡ sized (allowed n v) (words n v) }
{
    Sizes::of(n, v).map_or(0, |z| z.table() as u64)
}

// W, the 32-bit words of work space.
#[unsafe(no_mangle)]
pub extern "C" fn yigtrav_work_words(n: u32, v: u32) -> u64
    ensures { result ≡ sized (allowed n v) (work_words n v) }
{
    kernel::work_space(setting(n, v)).unwrap_or(0)
}
