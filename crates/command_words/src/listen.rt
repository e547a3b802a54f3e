//! Whose packets a live session hears.

ghost use Rattle.std.specs.Prelude.{◌≡◌};
ghost use Rattle.command_words.specs.Words.{first_given};
ghost use Rattle.command_words.specs.LiveWords.{listen_in};

use live_ports::Listen;

/// Whose packets a word says are heard.
fn listen_of(word: &[u8]) -> Option<Listen>
    ensures { result ≡ listen_in word.now }
{
    if word == b"local".as_slice() {
        Some(Listen::Local)
    } else if word == b"all".as_slice() {
        Some(Listen::All)
    } else {
        None
    }
}

/// The same, where none was said before.
pub fn listen_once(said: Option<Listen>, word: &[u8]) -> Option<Listen>
    ensures { result ≡ first_given said (listen_in word.now) }
{
    match said {
        Some(_) => None,
        None => listen_of(word),
    }
}
