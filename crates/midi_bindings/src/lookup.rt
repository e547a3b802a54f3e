//! What events give.

ghost use Rattle.std.specs.Prelude.{◌≡◌, ◌≤ℤ◌, ◌*ℤ◌, ◌+ℤ◌, ◌-ℤ◌, int_div, ℤ, pos, negsuc, IsTrue};
ghost use Rattle.sl_base.specs.Limits.{max_loops};
ghost use Rattle.std.specs.List.{AllByRecursion};
ghost use Rattle.midi_bindings.specs.Lines.{is_binding};
ghost use Rattle.midi_bindings.specs.Lookups.{is_event_of, swept, given, looked_up};

use crate::binding::{BindKind, Binding};
use midi_reader::MidiEvent;
use sl_commands::Command;

/// The event is of this kind, on this channel and with this number.
fn is_event_of(kind: BindKind, channel: u8, number: u8, event: MidiEvent) -> bool
    ensures { result ≡ is_event_of kind channel number event }
{
    match (kind, event) {
        (BindKind::On, MidiEvent::NoteOn(c, n, _)) => c == channel && n == number,
        (BindKind::Off, MidiEvent::NoteOff(c, n)) => c == channel && n == number,
        (BindKind::Program, MidiEvent::ProgramChange(c, n)) => c == channel && n == number,
        (BindKind::High, MidiEvent::ControlChange(c, n, value)) => c == channel
            && n == number
            && value >= 64,
        (BindKind::Low, MidiEvent::ControlChange(c, n, value)) => c == channel
            && n == number
            && value < 64,
        _ => false,
    }
}

/// From the low end to the high one.
fn span_of(low: i32, high: i32) -> i64
    requires low { (pos 0 ≤ℤ low) × (low ≤ℤ pos 8388607) }
    requires high { (pos 0 ≤ℤ high) × (high ≤ℤ pos 8388607) }
    ensures value { result ≡ high -ℤ low }
    ensures within { (negsuc 8388606 ≤ℤ result) × (result ≤ℤ pos 8388607) }
{
    high as i64 - low as i64
}

/// A span times a value of a controller.
fn scaled(span: i64, value: u8) -> i64
    requires { (negsuc 8388606 ≤ℤ span) × (span ≤ℤ pos 8388607) }
    ensures value { result ≡ span *ℤ pos value }
    ensures within { (negsuc 2139094784 ≤ℤ result) × (result ≤ℤ pos 2139094785) }
{
    span * value as i64
}

/// The 127th part, rounded toward zero.
fn divided(span: i64) -> i64
    requires { (negsuc 2139094784 ≤ℤ span) × (span ≤ℤ pos 2139094785) }
    ensures value { result ≡ int_div span (pos 127) }
    ensures within { (negsuc 2139094784 ≤ℤ result) × (result ≤ℤ pos 2139094785) }
{
    span / 127
}

/// A part above the low end, or below it.
fn raised(low: i32, part: i64) -> i32
    requires low { (pos 0 ≤ℤ low) × (low ≤ℤ pos 8388607) }
    requires part { (negsuc 2139094784 ≤ℤ part) × (part ≤ℤ pos 2139094785) }
    ensures { result ≡ low +ℤ part }
{
    (low as i64 + part) as i32
}

/// The value of a sweep at a value of its controller.
fn swept(low: i32, high: i32, value: u8) -> i32
    requires low { (pos 0 ≤ℤ low) × (low ≤ℤ pos 8388607) }
    requires high { (pos 0 ≤ℤ high) × (high ≤ℤ pos 8388607) }
    ensures { result ≡ swept low high value }
{
    raised(low, divided(scaled(span_of(low, high), value)))
}

/// What a binding gives at an event.
fn given(binding: &Binding, event: MidiEvent) -> Option<Command>
    requires { IsTrue (is_binding max_loops binding.now) }
    ensures { result ≡ given binding.now event }
{
    match binding {
        Binding::Give {
            kind,
            channel,
            number,
            command,
        } => if is_event_of(*kind, *channel, *number, event) {
            Some(command.duplicate())
        } else {
            None
        },
        Binding::Sweep {
            channel,
            number,
            target,
            control,
            low,
            high,
        } => match event {
            MidiEvent::ControlChange(c, n, value) => if c == *channel && n == *number {
                Some(Command::Set(*target, *control, swept(*low, *high, value)))
            } else {
                None
            },
            _ => None,
        },
    }
}

/// What the first matching line gives.
pub fn first_given(lines: &[Binding], event: MidiEvent) -> Option<Command>
    requires { AllByRecursion (λ binding. IsTrue (is_binding max_loops binding)) lines.now }
    ensures { result ≡ looked_up lines.now event }
{
    'lines: for place in 0..lines.len() {
        if let Some(command) = given(&lines[place], event) {
            return Some(command);
        }
    }
    None
}
