//! The shapes of words.

ghost use Rattle.std.specs.Prelude.{◌≡◌, map};
ghost use Rattle.text_lines.specs.Shapes.{has_shape, have_shapes};

use crate::integer::is_integer;
use crate::numeral::is_numeral;

/// What a word looks like, whatever it names.
#[derive(Clone, Copy, PartialEq, Eq)]
pub enum Shape {
    /// `0`, or digits of which the first isn't `0`, 19 at most.
    Number,
    /// The same, or `-` and a number that isn't `0`.
    Integer,
    /// Any bytes that aren't none.
    Word,
}

impl Shape {
    /// The word looks so.
    pub fn fits(self, word: &[u8]) -> bool
        ensures { result ≡ has_shape self word.now }
    {
        match self {
            Shape::Number => is_numeral(word),
            Shape::Integer => is_integer(word),
            Shape::Word => !word.is_empty(),
        }
    }
}

/// There are as many words as shapes, and each looks like its own.
pub fn have_shapes(shapes: &[Shape], words: &[&[u8]]) -> bool
    ensures { result ≡ have_shapes shapes.now (map (λ w. w.now) words.now) }
{
    if shapes.len() != words.len() {
        return false;
    }
    for place in 0..words.len() {
        if !shapes[place].fits(words[place]) {
            return false;
        }
    }
    true
}
