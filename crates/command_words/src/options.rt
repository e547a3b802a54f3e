//! Options, of which each is two words; those of `render`.

ghost use Rattle.std.specs.Prelude.{◌≡◌, ◌≤◌, ℕ, List, map, length, Some, IfSome};
ghost use Rattle.std.specs.Option.{option_map};
ghost use Rattle.std.specs.String.{string_bytes};
ghost use Rattle.sl_base.specs.Limits.{max_period, max_chunks, max_loops};
ghost use Rattle.command_words.specs.Words.{number_in, session_in, first_given, with_option, options_in, none_given};

use crate::values::{number_once, session_of};
use sl_base::{MAX_CHUNKS, MAX_LOOPS, MAX_PERIOD, Name};
use std::marker::Model;

/// Options of a command, as many as were given.
pub trait Options<'a>: Drop + Sized {
    ghost use Rattle.std.specs.Prelude.{◌≡◌, ℕ, List, Option};

    // What is given with the option of two words, or None where they are none.
    ghost with_option: { List ℕ → List ℕ → Self → Option Self };

    /// With the option of two words, or None where they are none, or it was given before.
    fn with(self, word: &str, value: &'a str) -> Option<Self>
        ensures { result ≡ with_option word.now value.now self };
}

/// The options that the words give, two words each, or None where they aren't in the grammar.
pub fn options_of<'a, O: Options<'a>>(none: O, words: &'a [String]) -> Option<O>
    ensures { result ≡ options_in O.with_option (map string_bytes words.now) none }
{
    let mut options = none;
    let mut at = 0;
    'options: while at < words.len() {
        if at + 1 == words.len() {
            return None;
        }
        options = options.with(words[at].as_str(), words[at + 1].as_str())?;
        at += 2;
    }
    Some(options)
}

/// The options of `render` that were given, each at most once, in their ranges.
#[derive(Drop)]
pub struct RenderOptions {
    pub period: Option<u32>,
    pub chunks: Option<u32>,
    pub loops: Option<u32>,
    pub session: Option<Name>,
}

impl Model for RenderOptions {
    ghost use Rattle.command_words.specs.Words.{Given};
    ghost use Rattle.command_words.specs.Asking.{AreOptions};

    ghost Value = { Given };

    ghost view = { λ o.
        record { period = o.period; chunks = o.chunks; loops = o.loops; session = o.session } };

    ghost invariant = { λ o. AreOptions
        (record { period = o.period; chunks = o.chunks; loops = o.loops; session = o.session }) };
}

impl RenderOptions {
    /// No options.
    pub fn none() -> RenderOptions
        ensures { result ≡ none_given }
    {
        RenderOptions {
            period: None,
            chunks: None,
            loops: None,
            session: None,
        }
    }

    fn with_period(self, value: &[u8]) -> Option<RenderOptions>
        ensures { result ≡ option_map (λ n. record self { period = Some n })
            (first_given self.period (number_in max_period value.now)) }
    {
        let period = number_once(self.period, MAX_PERIOD, value)?;
        Some(RenderOptions {
            period: Some(period),
            ..self
        })
    }

    fn with_chunks(self, value: &[u8]) -> Option<RenderOptions>
        ensures { result ≡ option_map (λ n. record self { chunks = Some n })
            (first_given self.chunks (number_in max_chunks value.now)) }
    {
        let chunks = number_once(self.chunks, MAX_CHUNKS, value)?;
        Some(RenderOptions {
            chunks: Some(chunks),
            ..self
        })
    }

    fn with_loops(self, value: &[u8]) -> Option<RenderOptions>
        ensures { result ≡ option_map (λ n. record self { loops = Some n })
            (first_given self.loops (number_in max_loops value.now)) }
    {
        let loops = number_once(self.loops, MAX_LOOPS as u32, value)?;
        Some(RenderOptions {
            loops: Some(loops),
            ..self
        })
    }

    fn with_session(self, value: &[u8]) -> Option<RenderOptions>
        ensures { result ≡ option_map (λ name. record self { session = Some name })
            (first_given self.session (session_in value.now)) }
    {
        if self.session.is_some() {
            return None;
        }
        let name = session_of(value)?;
        Some(RenderOptions {
            session: Some(name),
            ..self
        })
    }

    /// With the option of two words, or None where they are none, or it was given before.
    pub fn with_word(self, word: &[u8], value: &[u8]) -> Option<RenderOptions>
        ensures { result ≡ with_option word.now value.now self }
    {
        if word == b"--period".as_slice() {
            self.with_period(value)
        } else if word == b"--chunks".as_slice() {
            self.with_chunks(value)
        } else if word == b"--loops".as_slice() {
            self.with_loops(value)
        } else if word == b"--session".as_slice() {
            self.with_session(value)
        } else {
            None
        }
    }
}

impl<'a> Options<'a> for RenderOptions {
    ghost use Rattle.command_words.specs.Words.{with_option};

    ghost with_option = { with_option };

    fn with(self, word: &str, value: &'a str) -> Option<RenderOptions> {
        self.with_word(word.as_bytes(), value.as_bytes())
    }
}
