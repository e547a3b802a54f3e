//! What a run tells the console. None of these calls takes memory.

ghost use Rattle.std.specs.Prelude.{◌≡◌, ◌≤◌, ◌<◌, ◌+◌, [], ◌∷◌, ◌++◌, length};
ghost use Rattle.std.specs.Fmt.{decimal};
ghost use Rattle.sl_ports.specs.Effects.{TellsTo};
ghost use Rattle.console_lines.specs.Telling.{fault_text, bad_file_text, TellsFault, TellsDone};
ghost use Rattle.console_lines.specs.Statuses.{status_of};

use crate::status::{RunFault, Status};
use arrayvec::ArrayString;
use sl_base::Name;
use sl_ports::{Sink, SinkAnswer};

/// Tells a text. A console that fails has a prefix of it.
pub fn tell<C: Sink>(console: &mut C, text: &str)
    ensures { TellsTo C.Sink console.old console.new text.now }
{
    let _ = console.write_all(text.as_bytes());
}

/// Puts the digit behind the text.
fn push_digit(text: &mut ArrayString<128>, digit: u8)
    requires digit { digit < 10 }
    requires room { length text.old.bytes + 1 ≤ 128 }
    ensures bytes { text.new.bytes ≡ text.old.bytes ++ (48 + digit) ∷ [] }
    ensures len { length text.new.bytes ≡ length text.old.bytes + 1 }
{
    text.push((b'0' + digit) as char);
}

/// Puts the digits of a number behind the text.
#[tactic(auto, using(crate::proofs::NumberLemmas::one_digit, crate::proofs::NumberLemmas::more_digits, crate::proofs::NumberLemmas::one_has_room, crate::proofs::NumberLemmas::more_has_room))]
fn push_number(text: &mut ArrayString<128>, number: u32)
    requires { length text.old.bytes + length (decimal number) ≤ 128 }
    ensures bytes { text.new.bytes ≡ text.old.bytes ++ decimal number }
    ensures len { length text.new.bytes ≡ length text.old.bytes + length (decimal number) }
{
    if number < 10 {
        push_digit(text, number as u8);
    } else {
        push_number(text, number / 10);
        push_digit(text, (number % 10) as u8);
    }
}

/// Puts a fault and its line behind the text.
#[tactic(auto, using(crate::proofs::NumberLemmas::short_kind, crate::proofs::NumberLemmas::short_line))]
fn push_fault(text: &mut ArrayString<128>, kind: u8, line: u32)
    requires { length text.old.bytes + 32 ≤ 128 }
    ensures bytes { text.new.bytes ≡ text.old.bytes ++ fault_text kind line }
    ensures len { length text.new.bytes ≤ length text.old.bytes + 32 }
{
    text.push_str(" fault ");
    push_number(text, kind as u32);
    text.push_str(" line ");
    push_number(text, line);
    text.push_str("\n");
}

/// Tells of a bad file.
fn tell_bad_file<C: Sink>(console: &mut C, name: &Name, kind: u8, line: u32)
    ensures { TellsTo C.Sink console.old console.new (bad_file_text name.now kind line) }
{
    let mut text: ArrayString<128> = ArrayString::new();
    text.push_str("file ");
    text.push_str(name.as_str());
    push_fault(&mut text, kind, line);
    text.push_str(Status::BadFile.line());
    tell(console, text.as_str());
}

/// Tells why a run isn't done, and gives its status.
pub fn tell_fault<C: Sink>(console: &mut C, fault: &RunFault) -> Status
    ensures told { TellsFault C.Sink console.old console.new fault.now }
    ensures status { result ≡ status_of fault.now }
{
    match fault {
        RunFault::BadFile(name, kind, line) => tell_bad_file(console, name, *kind, *line),
        RunFault::Limit => tell(console, Status::Limit.line()),
        RunFault::Reading => tell(console, Status::ReadFault.line()),
        RunFault::Writing => tell(console, Status::WriteFault.line()),
        RunFault::Memory => {}
    }
    fault.status()
}

/// Tells the text of a run that is done, and gives its status.
pub fn tell_done<C: Sink>(console: &mut C, text: &str) -> Status
    ensures { TellsDone C.Sink console.old console.new text.now result }
{
    match console.write_all(text.as_bytes()) {
        SinkAnswer::Done => Status::Done,
        SinkAnswer::Failed => Status::WriteFault,
    }
}
