//! What one word of a line names.

ghost use Rattle.std.specs.Prelude.{◌≡◌, ◌≢◌, ℕ, ℤ, ◌≤◌, ◌<◌, ◌+◌, IfSome, IfNone};
ghost use Rattle.std.specs.Fmt.{decimal, signed_decimal};
ghost use Rattle.midi_bindings.specs.Lines.{kind_word, IsShort};
ghost use Rattle.midi_bindings.specs.declared.binding.BindKind.{BindKind};

use crate::binding::BindKind;
use text_lines::{number_of, read_integer};

/// The channel, counted from 0, that a word spells, counted from 1.
pub fn channel_of(word: &[u8]) -> Option<u8>
    ensures found { IfSome result (λ channel. (word.now ≡ decimal (channel + 1)) × (channel < 16)) }
    ensures only { IfNone result ((channel : ℕ) → channel < 16 → word.now ≢ decimal (channel + 1)) }
{
    let number = number_of(word, 16)?;
    if 1 <= number {
        Some((number - 1) as u8)
    } else {
        None
    }
}

/// The kind that a word names.
pub fn kind_of(word: &[u8]) -> Option<BindKind>
    ensures found { IfSome result (λ kind. word.now ≡ kind_word kind) }
    ensures only { IfNone result ((kind : BindKind) → word.now ≢ kind_word kind) }
{
    if word == b"on".as_slice() {
        Some(BindKind::On)
    } else if word == b"off".as_slice() {
        Some(BindKind::Off)
    } else if word == b"pc".as_slice() {
        Some(BindKind::Program)
    } else if word == b"cc".as_slice() {
        Some(BindKind::High)
    } else if word == b"co".as_slice() {
        Some(BindKind::Low)
    } else {
        None
    }
}

/// The value of 32 bits that a word spells.
pub fn value_of(word: &[u8]) -> Option<i32>
    ensures found { IfSome result (λ value. (word.now ≡ signed_decimal value) × IsShort value) }
    ensures only { IfNone result ((value : ℤ) → IsShort value → word.now ≢ signed_decimal value) }
{
    match read_integer(word) {
        Some(value) => Some(value),
        None => None,
    }
}
