//! Numbers of options.

ghost use Rattle.std.specs.Prelude.{◌≡◌, ◌<◌, ◌≤◌, ◌+◌, ◌-◌, ◌*◌, ◌^◌, length, MatchOption, true, false};
ghost use Rattle.qt_command.specs.Numbers.{digits_from, is_digit, number_of, up_to};

/// The number with one digit more.
fn one_more(number: u32, byte: u8) -> Option<u32>
    requires { number < 100000000 }
    ensures { MatchOption result (is_digit byte ≡ false) (λ more. (is_digit byte ≡ true) × (more ≡ number * 10 + (byte - 48)) × (byte - 48 ≤ 9)) }
{
    if byte >= b'0' && byte <= b'9' {
        Some(number * 10 + u32::from(byte - b'0'))
    } else {
        None
    }
}

/// The number that at most nine digits write.
fn digits_from(mut number: u32, mut text: &[u8]) -> Option<u32>
    requires few { length text.now ≤ 9 }
    requires small { number < 10 ^ (9 - length text.now) }
    ensures { result ≡ digits_from number text.entry.now }
{
    while let [byte, rest @ ..] = text {
        number = one_more(number, *byte)?;
        text = rest;
    }
    Some(number)
}

#[tactic(auto, using(crate::proofs::Digits::some))]
/// The number from 1 to `most` that a text of one to nine digits writes.
pub fn number_of(most: u32, text: &str) -> Option<u32>
    ensures { result ≡ number_of most text.now }
{
    let digits = text.as_bytes();
    if digits.is_empty() || digits.len() > 9 {
        return None;
    }
    let number = digits_from(0, digits)?;
    if 1 <= number && number <= most {
        Some(number)
    } else {
        None
    }
}
