//! What a word is: a number in a range, a name or a path.

ghost use Rattle.std.specs.Prelude.{◌≡◌, ◌≤◌, ℕ, List, length, IfSome};
ghost use Rattle.std.specs.Option.{option_map};
ghost use Rattle.sl_base.specs.Limits.{max_session_name};
ghost use Rattle.command_words.specs.Words.{number_between, number_in, session_in, first_given};
ghost use Rattle.command_words.specs.LiveWords.{name_in, path_in, max_path};
ghost use Rattle.command_words.specs.Asking.{IsBetween, IsUpTo};

use sl_base::{MAX_SESSION_NAME, Name};
use text_lines::read_numeral;

/// The most bytes of a path.
const MAX_PATH: usize = 4096;

/// The number from `least` to `most` that a word spells.
#[tactic(auto, using(crate::proofs::WordsLemmas::spelled_in, crate::proofs::WordsLemmas::spelled_out, crate::proofs::WordsLemmas::unspelled))]
pub fn number_between(least: u32, most: u32, word: &[u8]) -> Option<u32>
    ensures value { result ≡ number_between least most word.now }
    ensures within { IsBetween least most result }
{
    match read_numeral(word) {
        Some(number) => if least as u64 <= number && number <= most as u64 {
            Some(number as u32)
        } else {
            None
        },
        None => None,
    }
}

/// The number from 1 on, where none was given before.
pub fn number_once(given: Option<u32>, most: u32, word: &[u8]) -> Option<u32>
    ensures value { result ≡ first_given given (number_in most word.now) }
    ensures within { IsUpTo most result }
{
    match given {
        Some(_) => None,
        None => number_between(1, most, word),
    }
}

/// The name of a session that a word is.
pub fn session_of(word: &[u8]) -> Option<Name>
    ensures value { result ≡ session_in word.now }
    ensures within { IfSome result (λ name. length name ≤ max_session_name) }
{
    if word.len() > MAX_SESSION_NAME {
        return None;
    }
    Name::read(word)
}

/// The name that a word is, where none was given before.
pub fn name_once(given: &Option<Name>, word: &[u8]) -> Option<Name>
    ensures { result ≡ first_given given.now (name_in word.now) }
{
    if given.is_some() {
        return None;
    }
    Name::read(word)
}

/// The path that a word is: 1 to 4096 bytes.
pub fn path_of(word: &str) -> Option<&str>
    ensures value { option_map (λ path. path.now) result ≡ path_in word.now }
{
    if word.is_empty() || word.len() > MAX_PATH {
        return None;
    }
    Some(word)
}
