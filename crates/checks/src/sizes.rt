// What a setting fixes: its prime, its sizes, and the work space that a caller allocates.
ghost use Rattle.std.specs.Prelude.{◌≡◌, cond, Some, None, ◌+◌, ◌*◌, ◌≤◌};
ghost use Rattle.monomial.specs.Count.{allowed};
ghost use Rattle.answer.specs.Sizes.{work_words};
ghost use Rattle.answer.specs.Checks.{setting_check};
ghost use Rattle.counts.specs.Sizes.{Sized};
ghost use Rattle.checks.specs.Settings.{prime_of};
ghost use Rattle.checks.specs.Room.{needed_by, Decided};

use crate::Kind;
use answer::{Refusal, Setting};
use counts::Sizes;

// The prime of a setting. It is asked for where it is used, so that the compiler knows it there.
#[tactic(auto, unfolding(crate::specs::Settings::prime_of))]
pub fn prime(s: Setting) -> u32
    ensures { result ≡ prime_of s }
{
    residue::modulus()
}

// 1, and the sizes of a setting in range.
#[tactic(auto, unfolding(answer::specs::Checks::setting_check))]
pub fn sizes(s: Setting) -> Result<Sizes, Refusal>
    ensures { Decided s (setting_check s.n s.v) result }
{
    Sizes::of(s.n, s.v).ok_or(Refusal::SettingOutOfRange)
}

// W, the words of work space.
pub fn work_words(z: Sizes) -> usize
    requires { (z.n ≤ 10) × (z.v ≤ 8) × (z.count ≤ 8008) }
    ensures { result ≡ (z.n + 2 * z.v + 4) * (z.count + 1) + 2 * z.v * z.v }
{
    (z.n + 2 * z.v + 4) * z.series() + 2 * z.v * z.v
}

impl Kind {
    // The words that a slice of this kind needs.
    #[tactic(auto, unfolding(answer::specs::Sizes::series_words, answer::specs::Sizes::map_words))]
    pub(crate) fn needed(self, z: Sizes) -> usize
        requires { Sized z }
        ensures { result ≡ needed_by z self }
    {
        match self {
            Kind::Table => z.table(),
            Kind::Series => z.series(),
            Kind::Map => z.map(),
            Kind::Work => work_words(z),
        }
    }
}

// W, the 32-bit words of work space, or none where the setting is out of range.
#[tactic(auto, unfolding(answer::specs::Checks::setting_check))]
pub fn work_space(s: Setting) -> Option<u64>
    ensures { result ≡ cond (allowed s.n s.v) (Some (work_words s.n s.v)) None }
{
    let z = Sizes::of(s.n, s.v)?;
    Some(work_words(z) as u64)
}
