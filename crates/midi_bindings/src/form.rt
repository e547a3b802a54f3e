//! The forms of a line, by the shapes of its words.

ghost use Rattle.std.specs.Prelude.{◌≡◌, map};
ghost use Rattle.midi_bindings.specs.Lines.{is_kind, is_press_word, is_give_form, is_sweep_form, is_form};

use text_lines::{Shape, have_shapes};

/// The word is that of a kind.
fn is_kind(word: &[u8]) -> bool
    ensures { result ≡ is_kind word.now }
{
    word == b"on".as_slice()
        || word == b"off".as_slice()
        || word == b"pc".as_slice()
        || word == b"cc".as_slice()
        || word == b"co".as_slice()
}

/// The word says how a verb is given.
fn is_press_word(word: &[u8]) -> bool
    ensures { result ≡ is_press_word word.now }
{
    word == b"down".as_slice() || word == b"up".as_slice() || word == b"hit".as_slice()
}

/// The words have the form of a verb that is given.
fn is_give_form(kind: &[u8], press: &[u8], words: &[&[u8]]) -> bool
    ensures { result ≡ is_give_form kind.now press.now (map (λ w. w.now) words.now) }
{
    is_kind(kind) && is_press_word(press) && have_shapes(&[Shape::Integer, Shape::Word], words)
}

/// The words have the form of a sweep.
fn is_sweep_form(kind: &[u8], set: &[u8], words: &[&[u8]]) -> bool
    ensures { result ≡ is_sweep_form kind.now set.now (map (λ w. w.now) words.now) }
{
    let shapes = [Shape::Integer, Shape::Word, Shape::Integer, Shape::Integer];
    kind == b"cv".as_slice() && set == b"set".as_slice() && have_shapes(&shapes, words)
}

/// The words have the form of a binding's line.
pub fn is_form(words: &[&[u8]]) -> bool
    ensures { result ≡ is_form (map (λ w. w.now) words.now) }
{
    match words {
        [kind, channel, number, word, rest @ ..] => {
            have_shapes(&[Shape::Number, Shape::Number], &[*channel, *number])
                && (is_give_form(kind, word, rest) || is_sweep_form(kind, word, rest))
        }
        _ => false,
    }
}
