//! What one word of a line names, and the words behind the first.

ghost use Rattle.std.specs.Prelude.{◌≡◌, ◌≢◌, ℕ, ◌≤◌, ◌∷◌, List, map, IfSome, IfNone, IsTrue};
ghost use Rattle.sl_commands.specs.Commands.{is_target};
ghost use Rattle.sl_commands.specs.declared.command.Target.{Target};
ghost use Rattle.std.specs.Fmt.{decimal};
ghost use Rattle.text_lines.specs.Targets.{target_word};

use crate::integer::read_integer;
use crate::numeral::read_numeral;
use sl_commands::Target;

/// The target that a word spells.
pub fn target_of(word: &[u8]) -> Option<Target>
    ensures found { IfSome result (λ target. (word.now ≡ target_word target)
        × IsTrue (is_target 256 target)) }
    ensures only { IfNone result ((target : Target) → IsTrue (is_target 256 target) →
        word.now ≢ target_word target) }
{
    let number = read_integer(word)?;
    Target::numbered(number as i64)
}

/// The number that a word spells, `most` at most. `most` has 19 digits at most.
pub fn number_of(word: &[u8], most: u64) -> Option<u64>
    requires { most ≤ 9999999999999999999 }
    ensures found { IfSome result (λ number. (word.now ≡ decimal number) × (number ≤ most)) }
    ensures only { IfNone result ((number : ℕ) → number ≤ most → word.now ≢ decimal number) }
{
    let number = read_numeral(word)?;
    if number <= most { Some(number) } else { None }
}

/// The words behind the first, where that is this one.
pub fn behind<'a, 'b>(words: &'a [&'b [u8]], first: &[u8]) -> Option<&'a [&'b [u8]]>
    ensures found { IfSome result
        (λ rest. map (λ w. w.now) words.now ≡ first.now ∷ map (λ w. w.now) rest.now) }
    ensures only { IfNone result ((rest : List (List ℕ)) →
        map (λ w. w.now) words.now ≢ first.now ∷ rest) }
{
    let (word, rest) = words.split_first()?;
    if *word == first { Some(rest) } else { None }
}
