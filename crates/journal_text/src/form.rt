//! The forms of a line, by the shapes of its words.

ghost use Rattle.std.specs.Prelude.{◌≡◌, ◌&&◌, ◌||◌, ◌∷◌, [], map, codes};
ghost use Rattle.text_lines.specs.declared.shape.Shape.TheVariants.{Number, Integer, Word};
ghost use Rattle.std.specs.List.{list_any};
ghost use Rattle.journal_text.specs.JournalLines.{form_of, have_form, command_forms, is_form};

use text_lines::{Shape, have_shapes};

/// The words have the form of a command with this first word and these shapes behind it.
fn have_form(word: &[u8], words: &[&[u8]], due: &[u8], shapes: &[Shape]) -> bool
    ensures { result ≡ have_form word.now (map (λ w. w.now) words.now)
        (form_of due.now shapes.now) }
{
    due == word && have_shapes(shapes, words)
}

/// The words have the form of what is done to a loop.
fn is_play(word: &[u8], words: &[&[u8]]) -> bool
    ensures { let have = have_form word.now (map (λ w. w.now) words.now) in let shapes =
        Integer ∷ Word ∷ [] in
        result ≡ (have (form_of (codes "down") shapes)
        || (have (form_of (codes "up") shapes) || have (form_of (codes "hit") shapes))) }
{
    let shapes = [Shape::Integer, Shape::Word];
    have_form(word, words, b"down", &shapes)
        || have_form(word, words, b"up", &shapes)
        || have_form(word, words, b"hit", &shapes)
}

/// The words have the form of what sets or reads a control.
fn is_setting(word: &[u8], words: &[&[u8]]) -> bool
    ensures { let have = have_form word.now (map (λ w. w.now) words.now) in
        result ≡ (have (form_of (codes "set") (Integer ∷ Word ∷ Integer ∷ []))
        || (have (form_of (codes "gset") (Word ∷ Integer ∷ []))
        || (have (form_of (codes "get") (Integer ∷ Word ∷ []))
        || have (form_of (codes "gget") (Word ∷ []))))) }
{
    have_form(
        word,
        words,
        b"set",
        &[Shape::Integer, Shape::Word, Shape::Integer],
    ) || have_form(word, words, b"gset", &[Shape::Word, Shape::Integer])
        || have_form(word, words, b"get", &[Shape::Integer, Shape::Word])
        || have_form(word, words, b"gget", &[Shape::Word])
}

/// The words have the form of what saves, or of what ends a run.
fn is_save(word: &[u8], words: &[&[u8]]) -> bool
    ensures { let have = have_form word.now (map (λ w. w.now) words.now) in
        result ≡ (have (form_of (codes "save") (Integer ∷ Word ∷ []))
        || (have (form_of (codes "session") (Word ∷ []))
        || (have (form_of (codes "release") (Integer ∷ Number ∷ []))
        || have (form_of (codes "quit") [])))) }
{
    have_form(word, words, b"save", &[Shape::Integer, Shape::Word])
        || have_form(word, words, b"session", &[Shape::Word])
        || have_form(word, words, b"release", &[Shape::Integer, Shape::Number])
        || have_form(word, words, b"quit", &[])
}

/// The words have the form of a command.
fn is_command(word: &[u8], words: &[&[u8]]) -> bool
    ensures { result ≡ list_any (have_form word.now (map (λ w. w.now) words.now)) command_forms }
{
    is_play(word, words) || is_setting(word, words) || is_save(word, words)
}

/// The words have the form of an entry's line: three numbers, and a command.
pub fn is_form(words: &[&[u8]]) -> bool
    ensures { result ≡ is_form (map (λ w. w.now) words.now) }
{
    match words {
        [frame, sender, seq, word, rest @ ..] => {
            have_shapes(
                &[Shape::Number, Shape::Number, Shape::Number],
                &[*frame, *sender, *seq],
            ) && is_command(word, rest)
        }
        _ => false,
    }
}
