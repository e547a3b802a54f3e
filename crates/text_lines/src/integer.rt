//! Whole numbers, also below 0, in their one decimal spelling.

ghost use Rattle.std.specs.Prelude.{◌≡◌, ℕ, ◌≤◌, ℤ, pos, negsuc, ◌≤ℤ◌, ◌∷◌, IfSome, IfNone};
ghost use Rattle.text_lines.specs.Numerals.{is_below_zero, is_integer, IsIntegerOf};

use crate::numeral::{is_numeral, read_numeral};

fn is_below_zero(bytes: &[u8]) -> bool
    ensures { result ≡ is_below_zero bytes.now }
{
    match bytes {
        [] => false,
        [first, rest @ ..] => *first == b'-' && is_numeral(rest) && rest != b"0".as_slice(),
    }
}

/// The bytes spell a whole number: a number, or `-` and a number that isn't `0`.
pub fn is_integer(bytes: &[u8]) -> bool
    ensures { result ≡ is_integer bytes.now }
{
    is_numeral(bytes) || is_below_zero(bytes)
}

/// The number of 32 bits that the digits spell.
fn at_least_zero(digits: &[u8]) -> Option<i32>
    ensures found { IfSome result (IsIntegerOf digits.now) }
    ensures only { IfNone result ((number : ℕ) → number ≤ 2147483647 →
        ¬ IsIntegerOf digits.now (pos number)) }
{
    let size = read_numeral(digits)?;
    if size <= 2147483647 {
        Some(size as i32)
    } else {
        None
    }
}

/// The number of 32 bits that `-` and the digits spell.
fn below_zero(digits: &[u8]) -> Option<i32>
    ensures found { IfSome result (IsIntegerOf (45 ∷ digits.now)) }
    ensures only { IfNone result ((number : ℕ) → number ≤ 2147483647 →
        ¬ IsIntegerOf (45 ∷ digits.now) (negsuc number)) }
{
    let size = read_numeral(digits)?;
    if 1 <= size && size <= 2147483648 {
        Some((0 - size as i64) as i32)
    } else {
        None
    }
}

/// The number of 32 bits that the bytes spell, or None where they spell none.
pub fn read_integer(bytes: &[u8]) -> Option<i32>
    ensures found { IfSome result (IsIntegerOf bytes.now) }
    ensures only { IfNone result ((number : ℤ) → negsuc 2147483647 ≤ℤ number →
        number ≤ℤ pos 2147483647 → ¬ IsIntegerOf bytes.now number) }
{
    match bytes.strip_prefix(b"-") {
        Some(digits) => below_zero(digits),
        None => at_least_zero(bytes),
    }
}
