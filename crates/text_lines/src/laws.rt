//! What holds of the definitions.

ghost use Rattle.std.specs.Prelude.{◌≡◌, ◌≢◌, ℕ, ℤ, List, [], IsTrue};
ghost use Rattle.std.specs.List.{AllByRecursion};
ghost use Rattle.text_lines.specs.Numerals.{is_numeral, is_integer, IsNumeralOf, IsIntegerOf};
ghost use Rattle.text_lines.specs.Lines.{words_in, line_of, IsWord};

/// Bytes of the form of a number spell one, and no other bytes do.
pub fn numbers_have_one_spelling()
    ensures found { (bytes : List ℕ) → IsTrue (is_numeral bytes) → (number : ℕ)
        × IsNumeralOf bytes number }
    ensures only { (bytes : List ℕ) (number : ℕ) → IsNumeralOf bytes number →
        IsTrue (is_numeral bytes) }
    ensures one { (bytes : List ℕ) (number other : ℕ) → IsNumeralOf bytes number →
        IsNumeralOf bytes other → number ≡ other }
{}

/// The same of whole numbers.
pub fn integers_have_one_spelling()
    ensures found { (bytes : List ℕ) → IsTrue (is_integer bytes) → (number : ℤ)
        × IsIntegerOf bytes number }
    ensures only { (bytes : List ℕ) (number : ℤ) → IsIntegerOf bytes number →
        IsTrue (is_integer bytes) }
    ensures one { (bytes : List ℕ) (number other : ℤ) → IsIntegerOf bytes number →
        IsIntegerOf bytes other → number ≡ other }
{}

/// A line is its words with single spaces between them, and words that stand whole in a line are
/// those of their line.
pub fn a_line_is_its_words()
    ensures line { (line : List ℕ) → line_of (words_in line) ≡ line }
    ensures words { (words : List (List ℕ)) → words ≢ [] → AllByRecursion IsWord words →
        words_in (line_of words) ≡ words }
{}
