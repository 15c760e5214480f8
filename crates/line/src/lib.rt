// The line that maptab reads: its n and v, and the decision on it.
#![tactic(auto)]

mod parse;

ghost use Rattle.std.specs.Prelude.{◌≡◌, IfOk, [], ◌∷◌};
ghost use Rattle.monomial.specs.Count.{count, codes, Allowed};
ghost use Rattle.answer.specs.Refusals.{verdict};
ghost use Rattle.answer.specs.Checks.{first_of, setting_check};
ghost use Rattle.line.specs.Line.{form_check, parsed_order, parsed_variables, parsed_line};
ghost use Rattle.line.specs.Line.{line_order, line_variables, line_check};

use answer::Refusal;
use counts::Sizes;
use parse::parse;

// What is decided on the input: n and v as they are read off it, refused or not (none where it is malformed), and the
// sizes for them, or why it is refused.
#[derive(Clone, Copy)]
pub struct Decision {
    pub numbers: Option<(u32, u32)>,
    pub sizes: Result<Sizes, Refusal>,
}

// 'In maptab 10 is tested first, then 1.'
pub fn decide(input: &[u8]) -> Decision
    ensures check_value { verdict result.sizes ≡ line_check input.now }
    ensures numbers { result.numbers ≡ parsed_line input.now }
    ensures n_value { (parsed_order result.numbers ≡ line_order input.now)
        × (parsed_variables result.numbers ≡ line_variables input.now) }
    ensures sizes_value { IfOk result.sizes (λ z. (z.n ≡ line_order input.now) × (z.v ≡ line_variables input.now)) }
    ensures sizes { IfOk result.sizes (λ z. Allowed z.n z.v × (z.count ≡ count z.n z.v) × (z.codes ≡ codes z.n z.v)) }
{
    let numbers = parse(input);
    let sizes = sizes_of(numbers);
    Decision { numbers, sizes }
}

// The sizes for what is read off a line: 10 where it is none, 1 where n, v or N is out of range.
fn sizes_of(numbers: Option<(u32, u32)>) -> Result<Sizes, Refusal>
    ensures check_value { verdict result
        ≡ first_of (form_check numbers ∷ setting_check (parsed_order numbers) (parsed_variables numbers) ∷ []) }
    ensures n_value { IfOk result (λ z. (z.n ≡ parsed_order numbers) × (z.v ≡ parsed_variables numbers)) }
    ensures sizes { IfOk result (λ z. Allowed z.n z.v × (z.count ≡ count z.n z.v) × (z.codes ≡ codes z.n z.v)) }
{
    let (n, v) = numbers.ok_or(Refusal::Malformed)?;
    Sizes::of(n, v).ok_or(Refusal::SettingOutOfRange)
}
