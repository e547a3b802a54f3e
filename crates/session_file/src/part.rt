//! The names of a session's WAV files.

ghost use Rattle.std.specs.Prelude.{◌≡◌, ◌+◌, ◌≤◌, ◌<◌, [], ◌∷◌, ◌++◌, length};
ghost use Rattle.std.specs.Fmt.{decimal};
ghost use Rattle.sl_base.specs.Limits.{max_session_name};
ghost use Rattle.session_file.specs.Parts.{part_name};

use arrayvec::ArrayString;
use sl_base::Name;

/// Puts the digit behind the text.
fn push_digit(text: &mut ArrayString<64>, digit: u8)
    requires digit { digit < 10 }
    requires room { length text.old.bytes + 1 ≤ 64 }
    ensures { text.new.bytes ≡ text.old.bytes ++ (48 + digit) ∷ [] }
{
    text.push((b'0' + digit) as char);
}

/// Puts the number behind the text.
#[tactic(auto, using(crate::proofs::PartLemmas::one_digit, crate::proofs::PartLemmas::two_digits, crate::proofs::PartLemmas::three_digits))]
fn push_number(text: &mut ArrayString<64>, number: u8)
    requires { length text.old.bytes + 3 ≤ 64 }
    ensures { text.new.bytes ≡ text.old.bytes ++ decimal number }
{
    if number < 10 {
        push_digit(text, number);
    } else if number < 100 {
        push_digit(text, number / 10);
        push_digit(text, number % 10);
    } else {
        push_digit(text, number / 10 / 10);
        push_digit(text, number / 10 % 10);
        push_digit(text, number % 10);
    }
}

/// The bytes of a part's name.
#[tactic(auto, using(crate::proofs::PartLemmas::short_number))]
fn spell(session: &Name, index: u8) -> ArrayString<64>
    requires { length session.now ≤ max_session_name }
    ensures { result.bytes ≡ part_name session.now index }
{
    let mut text = ArrayString::new();
    text.push_str(session.as_str());
    text.push_str("-");
    push_number(&mut text, index);
    text.push_str(".wav");
    text
}

/// The name of the WAV file of the loop with this index: the session's name, `-`, the index and
/// `.wav`. The session's name has at most 48 bytes. No memory is taken.
#[tactic(auto, using(crate::proofs::PartLemmas::part_is_name))]
pub fn part_name(session: &Name, index: u8) -> Name
    requires { length session.now ≤ max_session_name }
    ensures { result ≡ part_name session.now index }
{
    let _session = session.as_bytes();
    match Name::read(spell(session, index).as_str().as_bytes()) {
        Some(name) => name,
        None => unreachable!(),
    }
}
