//! Numbers in their one decimal spelling.

ghost use Rattle.std.specs.Prelude.{◌≡◌, ℕ, IfSome, IsNone};
ghost use Rattle.std.specs.Str.{all_ascii_digits};
ghost use Rattle.text_lines.specs.Numerals.{begins_plainly, is_numeral, IsNumeralOf};

fn begins_plainly(bytes: &[u8]) -> bool
    ensures { result ≡ begins_plainly bytes.now }
{
    match bytes {
        [] => false,
        [_] => true,
        [first, _, ..] => *first != b'0',
    }
}

fn are_digits(bytes: &[u8]) -> bool
    ensures { result ≡ all_ascii_digits bytes.now }
{
    for byte in bytes {
        if !byte.is_ascii_digit() {
            return false;
        }
    }
    true
}

/// The bytes spell a number: digits alone, 19 at most, and the first isn't `0` where there are
/// more.
pub fn is_numeral(bytes: &[u8]) -> bool
    ensures { result ≡ is_numeral bytes.now }
{
    begins_plainly(bytes) && are_digits(bytes) && bytes.len() <= 19
}

/// The number that the bytes spell, or None where they spell none of at most 19 digits.
pub fn read_numeral(bytes: &[u8]) -> Option<u64>
    ensures found { IfSome result (IsNumeralOf bytes.now) }
    ensures only { IsNone result → (number : ℕ) → IsNumeralOf bytes.now number → ⊥ }
{
    if !is_numeral(bytes) {
        return None;
    }
    let Ok(text) = str::from_utf8(bytes) else {
        return None;
    };
    match text.parse() {
        Ok(number) => Some(number),
        Err(_) => None,
    }
}
