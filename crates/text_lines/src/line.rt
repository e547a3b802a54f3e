//! Lines, and the words of a line.

ghost use Rattle.std.specs.Prelude.{◌≡◌, ◌<◌, ◌≤◌, ◌+◌, ◌++◌, ◌∷◌, [], map, length, IfSome, IfNone};
ghost use Rattle.text_lines.specs.Lines.{Lacks, IsCutAt, words_in};

use arrayvec::ArrayVec;
use std::marker::Model;

/// The greatest number of words that a line of any form has.
pub const MOST_WORDS: usize = 9;

/// What stands before the first of a byte, and what behind it, or None where the byte isn't there.
fn cut_at(bytes: &[u8], byte: u8) -> Option<(&[u8], &[u8])>
    ensures found { IfSome result (λ parts. IsCutAt byte bytes.now parts.0.now parts.1.now) }
    ensures only { IfNone result (Lacks byte bytes.now) }
{
    for place in 0..bytes.len() {
        if bytes[place] == byte {
            return Some((&bytes[..place], &bytes[place + 1..]));
        }
    }
    None
}

/// The first whole line, without its line feed, and what stands behind it, or None where there is
/// no line feed.
pub fn next_line(bytes: &[u8]) -> Option<(&[u8], &[u8])>
    ensures found { IfSome result (λ parts. IsCutAt 10 bytes.now parts.0.now parts.1.now) }
    ensures only { IfNone result (Lacks 10 bytes.now) }
{
    cut_at(bytes, b'\n')
}

/// The words of a line, nine at most.
#[derive(Drop)]
pub struct Words<'a> {
    words: ArrayVec<&'a [u8], MOST_WORDS>,
}

impl<'a> Model for Words<'a> {
    ghost use Rattle.std.specs.Prelude.{ℕ, List, map};

    ghost Value = { List (List ℕ) };

    ghost view = { λ w. map (λ word. word.now) w.words.items };
}

impl<'a> Words<'a> {
    /// The words by place.
    pub fn as_slice(&self) -> &[&'a [u8]]
        ensures { map (λ word. word.now) result.now ≡ self.now }
    {
        self.words.as_slice()
    }
}

/// The words of a line, or None where there are more than nine. An empty word stands where two
/// spaces do, or a space at an end.
pub fn words_of(line: &[u8]) -> Option<Words<'_>>
    ensures found { IfSome result (λ words. words ≡ words_in line.now) }
    ensures only { IfNone result (MOST_WORDS < length (words_in line.now)) }
{
    let mut words = ArrayVec::new();
    let mut rest = line;
    for _ in 0..MOST_WORDS {
        match cut_at(rest, b' ') {
            Some((word, behind)) => {
                words.push(word);
                rest = behind;
            }
            None => {
                words.push(rest);
                return Some(Words { words });
            }
        }
    }
    None
}
