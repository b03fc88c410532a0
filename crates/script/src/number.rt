// Pieces at the front of a text.
ghost use Rattle.std.specs.Prelude.{◌≡◌, ◌<◌, ◌≤◌, ◌^◌, length, IfSome, option_map, option_copied};
ghost use Rattle.script.specs.Reading.{digits_after, number_at, rest_after};

/// The decimal number at the front, without a leading zero, and what follows its last digit.
/// None where no digit stands there, or where the number is above 255.
#[tactic(auto, unfolding(crate::specs::Reading::number_at))]
pub(crate) fn number_at(bytes: &[u8]) -> Option<(u32, &[u8])>
    ensures meaning { option_map (λ found. (found.0, found.1.now)) result ≡ number_at bytes.now }
    ensures small { IfSome result (λ found. found.0 ≤ 255) }
{
    let [first, rest @ ..] = bytes else {
        return None;
    };
    if !first.is_ascii_digit() {
        return None;
    }
    if *first == b'0' {
        return Some((0, rest));
    }
    digits_after(u32::from(*first - b'0'), rest)
}

/// The number followed by the digits at the front, and what follows the last of them. None where the number gets above 255.
#[tactic(auto, unfolding(crate::specs::Reading::digits_after))]
fn digits_after(mut number: u32, mut rest: &[u8]) -> Option<(u32, &[u8])>
    requires { number ≤ 255 }
    ensures meaning { option_map (λ found. (found.0, found.1.now)) result ≡ digits_after number rest.entry.now }
    ensures small { IfSome result (λ found. found.0 ≤ 255) }
{
    while let [digit, more @ ..] = rest {
        if !digit.is_ascii_digit() {
            break;
        }
        number = number * 10 + u32::from(*digit - b'0');
        if number > 255 {
            return None;
        }
        rest = more;
    }
    Some((number, rest))
}

/// What follows this front, where the text begins so.
#[tactic(auto, unfolding(crate::specs::Reading::rest_after))]
pub(crate) fn rest_after<'a>(front: &[u8], bytes: &'a [u8]) -> Option<&'a [u8]>
    ensures { option_copied result ≡ rest_after front.now bytes.now }
{
    bytes.strip_prefix(front)
}
