// The form of the line: n, one space, v, a newline.
ghost use Rattle.std.specs.Prelude.{◌≡◌, ◌&&◌, cond, Some, None, ◌+◌, ◌-◌, ◌*◌, ◌≤◌};
ghost use Rattle.line.specs.Line.{is_digit, parsed_line};

// n and v of an input that is one line: n, one space, v, a newline, each number one or two digits, and nothing else.
#[tactic(auto, using(crate::proofs::Shapes::lines))]
pub fn parse(input: &[u8]) -> Option<(u32, u32)>
    ensures { result ≡ parsed_line input.now }
{
    match input {
        [a, b' ', c, b'\n'] => Some((digit(*a)?, digit(*c)?)),
        [a, b, b' ', c, b'\n'] => Some((two_digits(*a, *b)?, digit(*c)?)),
        [a, b' ', c, d, b'\n'] => Some((digit(*a)?, two_digits(*c, *d)?)),
        [a, b, b' ', c, d, b'\n'] => Some((two_digits(*a, *b)?, two_digits(*c, *d)?)),
        _ => None,
    }
}

// The number that a digit spells.
fn digit(b: u8) -> Option<u32>
    ensures { result ≡ cond (is_digit b) (Some (b - 48)) None }
{
    match b {
        b'0'..=b'9' => Some(u32::from(b - b'0')),
        _ => None,
    }
}

// The number that two digits spell.
fn two_digits(a: u8, b: u8) -> Option<u32>
    ensures { result ≡ cond (is_digit a && is_digit b) (Some (10 * (a - 48) + (b - 48))) None }
{
    Some(10 * digit(a)? + digit(b)?)
}
