// Numbers that words spell: decimal digits, of which the first isn't 0.
ghost use Rattle.std.specs.Prelude.{◌≡◌, ◌<◌, ◌^◌, ◌&&◌, Some, None, nat_le, if◌then◌else◌};
ghost use Rattle.std.specs.Char.{is_ascii_digit};
ghost use Rattle.std.specs.List.{list_all};
ghost use Rattle.page_spec.specs.Header.{is_page_size};
ghost use Rattle.words.specs.Words.{is_number, is_limit, is_size, number_spelled};

/// The limit in frames that these bytes spell, None where they spell none.
#[tactic(auto, unfolding(crate::specs::Words::is_limit))]
pub(crate) fn limit_in(text: &[u8]) -> Option<u32>
    ensures { result ≡ (if is_limit text.now then Some (number_spelled text.now) else None) }
{
    number_up_to(1_000_000, text)
}

/// The page size in bytes that these bytes spell, None where they spell none.
#[tactic(auto, unfolding(crate::specs::Words::is_size))]
pub(crate) fn page_size_in(text: &[u8]) -> Option<u32>
    ensures { result ≡ (if is_size text.now then Some (number_spelled text.now) else None) }
{
    let size = number_up_to(65_536, text)?;
    if is_page_size(size) { Some(size) } else { None }
}

/// Whether a database can have pages of this size, in bytes.
#[tactic(auto, unfolding(page_spec::specs::Header::is_page_size))]
fn is_page_size(size: u32) -> bool
    ensures { result ≡ is_page_size size }
{
    match size {
        512 | 1024 | 2048 | 4096 | 8192 | 16384 | 32768 | 65536 => true,
        _ => false,
    }
}

/// The number that these bytes spell. None where they are no number, or where it is above `most`.
#[tactic(auto, unfolding(crate::specs::Words::is_number))]
fn number_up_to(most: u32, text: &[u8]) -> Option<u32>
    requires { most < 2 ^ 28 }
    ensures { result ≡ (if is_number text.now && nat_le (number_spelled text.now) most then Some (number_spelled text.now) else None) }
{
    match text {
        [] | [b'0', ..] => None,
        _ => digits_up_to(most, text),
    }
}

/// The number that these decimal digits spell, of which there may be none. None where another byte stands among them, or where
/// the number is above `most`.
fn digits_up_to(most: u32, text: &[u8]) -> Option<u32>
    requires { most < 2 ^ 28 }
    ensures { result ≡ (if list_all is_ascii_digit text.now && nat_le (number_spelled text.now) most then Some (number_spelled text.now) else None) }
{
    let mut number = 0;
    for byte in text {
        if !byte.is_ascii_digit() {
            return None;
        }
        number = number * 10 + u32::from(*byte - b'0');
        if number > most {
            return None;
        }
    }
    Some(number)
}
