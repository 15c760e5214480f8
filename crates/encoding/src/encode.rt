// One number for each answer.
ghost use Rattle.std.specs.Prelude.{◌≡◌, ◌+◌, ◌*◌, ◌%◌, ◌≤◌};
ghost use Rattle.answer.specs.Refusals.{number, place, outcome};
ghost use Rattle.encoding.specs.Encoding.{wide, encoded_place, encoded};

use answer::{Answer, Refusal};

// x in bits 24 to 63.
fn wide(x: u64) -> u64
    ensures { (result ≡ wide x) × (result ≤ 18446744073692774400) }
{
    x % 1099511627776 * 16777216
}

// Refusal 7 alone has a place of three numbers.
fn refusal(r: Refusal) -> u64
    ensures { result ≡ number r + encoded_place (place r) }
{
    let n = u64::from(r.number());
    match r {
        Refusal::NotAnImage(argument, component, word) => {
            let a = (argument % 256) as u64;
            let c = (component % 256) as u64;
            n + (a * 256 + c * 65536 + wide(word as u64))
        }
        _ => {
            let [place, _, _] = r.place();
            n + wide(place as u64)
        }
    }
}

// The number for an answer.
pub fn encode(a: Answer) -> u64
    ensures { result ≡ encoded (outcome a) }
{
    match a {
        Ok(k) => wide(k),
        Err(r) => refusal(r),
    }
}
