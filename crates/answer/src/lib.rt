// What every call of the kernel is told and what it answers: the setting, the refusals, the answers.
#![tactic(auto)]

ghost use Rattle.std.specs.Prelude.{◌≡◌, [], ◌∷◌, ◌++◌, length, drop};
ghost use Rattle.answer.specs.Refusals.{number, place};

// The setting of a call: n, the order, and v, the number of variables. It goes by value through every
// routine, so that a further number of the setting is one field more.
#[derive(Clone, Copy, PartialEq, Eq)]
pub struct Setting {
    pub n: u32,
    pub v: u32,
}

// Why a call is refused, and where: 01's ten refusals, in its order.
#[derive(Clone, Copy, PartialEq, Eq)]
pub enum Refusal {
    // 1: n, v or N is out of range.
    SettingOutOfRange,
    // 2: a slice is too short: which one, from 1 among those that the call takes.
    SliceTooShort(usize),
    // 3: the variable is not one of 1 to v.
    VariableOutOfRange,
    // 4: a bracket with an odd number of variables.
    OddVariables,
    // 5: the multiplier is no residue.
    MultiplierOutOfRange,
    // 6: a word of the table differs from the rule: the first such word, from 0.
    TableDiffers(usize),
    // 7: an input series is not an image: argument, component and word.
    NotAnImage(usize, usize, usize),
    // 8: an inner or inverted map has a constant: the first such component.
    HasConstant(usize),
    // 9: the linear part is singular modulo p.
    Singular,
    // 10: the line that maptab reads is malformed.
    Malformed,
}

impl Refusal {
    // The published number.
    pub fn number(self) -> u8
        ensures { result ≡ number self }
    {
        match self {
            Refusal::SettingOutOfRange => 1,
            Refusal::SliceTooShort(_) => 2,
            Refusal::VariableOutOfRange => 3,
            Refusal::OddVariables => 4,
            Refusal::MultiplierOutOfRange => 5,
            Refusal::TableDiffers(_) => 6,
            Refusal::NotAnImage(_, _, _) => 7,
            Refusal::HasConstant(_) => 8,
            Refusal::Singular => 9,
            Refusal::Malformed => 10,
        }
    }

    // The place: one number, or for 7 three; zeros behind it, since the number of a C call's answer has 0 there.
    pub fn place(self) -> [usize; 3]
        ensures { result ≡ place self ++ drop (length (place self)) (0 ∷ 0 ∷ 0 ∷ []) }
    {
        match self {
            Refusal::SliceTooShort(k) => [k, 0, 0],
            Refusal::TableDiffers(k) => [k, 0, 0],
            Refusal::NotAnImage(a, c, w) => [a, c, w],
            Refusal::HasConstant(k) => [k, 0, 0],
            _ => [0, 0, 0],
        }
    }
}

// What one check of the inputs says.
pub type Check = Result<(), Refusal>;

// What a call answers: the number that it reports (0 where it reports none, as in the number of a C call's answer),
// or why it is refused.
pub type Answer = Result<u64, Refusal>;
