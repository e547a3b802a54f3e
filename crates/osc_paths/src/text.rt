//! Parts of an address, and numbers.

ghost use Rattle.std.specs.Prelude.{◌≡◌, ◌≤◌, ◌<◌, ◌==◌, length, position, option_map, IfSome};
ghost use Rattle.osc_paths.specs.Texts.{cut_at, number_in, number_up_to};

use text_lines::read_numeral;

/// Where the first of a byte stands.
fn first_place(bytes: &[u8], byte: u8) -> Option<usize>
    ensures value { result ≡ position (λ b. b == byte) bytes.now }
    ensures within { IfSome result (λ place. place < length bytes.now) }
{
    bytes.iter().position(|b| *b == byte)
}

/// What stands before the first of a byte, and what behind it.
pub(crate) fn cut_at(bytes: &[u8], byte: u8) -> Option<(&[u8], &[u8])>
    ensures { option_map (λ parts. (parts.0.now, parts.1.now)) result ≡ cut_at byte bytes.now }
{
    let place = first_place(bytes, byte)?;
    let (front, behind) = bytes.split_at(place);
    let (_, rest) = behind.split_at(1);
    Some((front, rest))
}

/// The number that the bytes spell.
fn number_in(bytes: &[u8]) -> Option<u64>
    ensures { result ≡ number_in bytes.now }
{
    read_numeral(bytes)
}

/// The same, at most so great.
pub(crate) fn number_up_to(most: u64, bytes: &[u8]) -> Option<u64>
    ensures value { result ≡ number_up_to most bytes.now }
    ensures within { IfSome result (λ number. number ≤ most) }
{
    let number = number_in(bytes)?;
    if number <= most { Some(number) } else { None }
}
