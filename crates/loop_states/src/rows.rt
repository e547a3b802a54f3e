//! The table of verbs, row by row: which moves, by where the loop is.

ghost use Rattle.std.specs.Prelude.{◌≡◌, ◌≤◌, ◌%◌, ◌==◌, [], ◌∷◌, ◌++◌, length, if◌then◌else◌};
ghost use Rattle.looper_rules.specs.Verbs.{column, mute_toggled, unmuted, pause_toggled};
ghost use Rattle.loop_states.specs.declared.act.Move.TheVariants.{ToStart, SetMode};
ghost use Rattle.loop_states.specs.Deciding.{column_of, close_then, leads_to_off, is_at_stop, end_moves, record_moves, layer_moves, length_moves, mode_moves, mute_off_moves, start_moves, reverse_in, reverse_moves};

use crate::act::{Act, Move};
use sl_commands::{Face, Mode, Verb};

/// Where a loop is for a verb: in Off, in the verb's own writing mode, in another writing mode, or
/// elsewhere.
#[derive(Clone, Copy, PartialEq, Eq)]
pub(crate) enum Standing {
    InOff,
    InItsOwn,
    InAnother,
    Elsewhere,
}

/// Where a loop in this mode is for a verb.
pub(crate) fn standing_of(verb: Verb, mode: Mode) -> Standing
    ensures { column_of result ≡ column verb mode }
{
    if mode == Mode::Off {
        return Standing::InOff;
    }
    if !mode.is_writing() {
        return Standing::Elsewhere;
    }
    if mode.is_of(verb) {
        Standing::InItsOwn
    } else {
        Standing::InAnother
    }
}

/// Closing leads to Off: a Recording of length 0 that is the only layer.
fn leads_to_off(mode: Mode, face: &Face) -> bool
    ensures { result ≡ leads_to_off mode face.now }
{
    match mode {
        Mode::Recording => face.length == 0 && face.layers <= 1,
        _ => false,
    }
}

/// The rest of a division, where dividing by 0 leaves the number.
fn rest(number: u32, unit: u32) -> bool
    ensures { result ≡ (number % unit == 0) }
{
    if unit == 0 {
        number == 0
    } else {
        number % unit == 0
    }
}

/// A multiply or an insert is at its stop.
fn is_at_stop(mode: Mode, face: &Face) -> bool
    requires base { face.now.base ≤ face.now.length }
    ensures { result ≡ is_at_stop mode face.now }
{
    match mode {
        Mode::Multiplying => rest(face.pos, face.cycle),
        Mode::Inserting => rest(face.length - face.base, face.cycle),
        _ => false,
    }
}

/// Closes, and then makes this move unless closing leads to Off.
fn close_then(mode: Mode, face: &Face, next: Move, act: &mut Act)
    requires room { length act.old ≤ 1 }
    ensures { act.new ≡ act.old ++ close_then mode face.now (next ∷ []) }
{
    act.push(Move::Close);
    if !leads_to_off(mode, face) {
        act.push(next);
    }
}

/// Goes to the start in another mode.
fn start_in(next: Mode, act: &mut Act)
    requires room { length act.old ≤ 2 }
    ensures { act.new ≡ act.old ++ ToStart ∷ SetMode next ∷ [] }
{
    act.push(Move::ToStart);
    act.push(Move::SetMode(next));
}

/// Closes, and then goes to the start in another mode unless closing leads to Off.
fn close_then_start(mode: Mode, face: &Face, next: Mode, act: &mut Act)
    requires room { length act.old ≤ 1 }
    ensures { act.new ≡ act.old ++ close_then mode face.now (ToStart ∷ SetMode next ∷ []) }
{
    act.push(Move::Close);
    if !leads_to_off(mode, face) {
        start_in(next, act);
    }
}

/// A multiply or an insert that was asked to end.
fn end_row(mode: Mode, round: bool, face: &Face, act: &mut Act)
    requires room { length act.old ≤ 1 }
    requires base { face.now.base ≤ face.now.length }
    ensures { act.new ≡ act.old ++ end_moves mode round face.now }
{
    if !round || face.rounding || is_at_stop(mode, face) {
        act.push(Move::Close);
    } else {
        act.push(Move::Round);
    }
}

/// `record`.
pub(crate) fn record_row(standing: Standing, act: &mut Act)
    requires room { length act.old ≤ 1 }
    ensures { act.new ≡ act.old ++ record_moves (column_of standing) }
{
    match standing {
        Standing::InItsOwn => act.push(Move::Close),
        Standing::InAnother => {
            act.push(Move::Close);
            act.push(Move::Begin(Verb::Rec));
        }
        _ => act.push(Move::Begin(Verb::Rec)),
    }
}

/// `overdub`, `replace` and `substitute`.
pub(crate) fn layer_row(standing: Standing, verb: Verb, mode: Mode, face: &Face, act: &mut Act)
    requires room { length act.old ≤ 1 }
    ensures { act.new ≡ act.old ++ layer_moves (column_of standing) verb mode face.now }
{
    match standing {
        Standing::InOff => {}
        Standing::InItsOwn => act.push(Move::Close),
        Standing::InAnother => close_then(mode, face, Move::Begin(verb), act),
        Standing::Elsewhere => act.push(Move::Begin(verb)),
    }
}

/// `multiply` and `insert` where they would begin.
fn length_start(standing: Standing, verb: Verb, mode: Mode, face: &Face, act: &mut Act)
    requires room { length act.old ≤ 1 }
    ensures { act.new ≡ act.old
        ++ (if face.now.backward then [] else layer_moves (column_of standing) verb mode face.now) }
{
    if !face.backward {
        layer_row(standing, verb, mode, face, act);
    }
}

/// `multiply` and `insert`.
pub(crate) fn length_row(
    standing: Standing,
    verb: Verb,
    mode: Mode,
    round: bool,
    face: &Face,
    act: &mut Act,
)
    requires room { length act.old ≤ 1 }
    requires base { face.now.base ≤ face.now.length }
    ensures { act.new ≡ act.old ++ length_moves (column_of standing) verb mode round face.now }
{
    match standing {
        Standing::InOff => {}
        Standing::InItsOwn => end_row(mode, round, face, act),
        Standing::InAnother => length_start(Standing::InAnother, verb, mode, face, act),
        Standing::Elsewhere => length_start(Standing::Elsewhere, verb, mode, face, act),
    }
}

/// A verb that leads to one mode elsewhere, and to one in a writing mode.
pub(crate) fn mode_row(
    standing: Standing,
    there: Mode,
    next: Mode,
    mode: Mode,
    face: &Face,
    act: &mut Act,
)
    requires room { length act.old ≤ 1 }
    ensures { act.new ≡ act.old ++ mode_moves (column_of standing) there next mode face.now }
{
    match standing {
        Standing::InOff => {}
        Standing::Elsewhere => act.push(Move::SetMode(there)),
        _ => close_then(mode, face, Move::SetMode(next), act),
    }
}

/// `mute_off`.
pub(crate) fn mute_off_row(standing: Standing, mode: Mode, act: &mut Act)
    requires room { length act.old ≤ 1 }
    ensures { act.new ≡ act.old ++ mute_off_moves (column_of standing) mode }
{
    match standing {
        Standing::Elsewhere => act.push(Move::SetMode(unmuted(mode))),
        _ => {}
    }
}

/// `oneshot` and `trigger`.
pub(crate) fn start_row(standing: Standing, next: Mode, mode: Mode, face: &Face, act: &mut Act)
    requires room { length act.old ≤ 1 }
    ensures { act.new ≡ act.old ++ start_moves (column_of standing) next mode face.now }
{
    match standing {
        Standing::InOff => {}
        Standing::Elsewhere => start_in(next, act),
        _ => close_then_start(mode, face, next, act),
    }
}

/// `reverse` in a writing mode.
fn reverse_in(mode: Mode, face: &Face, act: &mut Act)
    requires room { length act.old ≤ 1 }
    ensures { act.new ≡ act.old ++ reverse_in mode face.now }
{
    match mode {
        Mode::Recording => close_then(Mode::Recording, face, Move::Turn, act),
        Mode::Multiplying => close_then(Mode::Multiplying, face, Move::Turn, act),
        Mode::Inserting => close_then(Mode::Inserting, face, Move::Turn, act),
        _ => {
            act.push(Move::BreakStreak);
            act.push(Move::Turn);
        }
    }
}

/// `reverse`.
pub(crate) fn reverse_row(standing: Standing, mode: Mode, face: &Face, act: &mut Act)
    requires room { length act.old ≤ 1 }
    ensures { act.new ≡ act.old ++ reverse_moves (column_of standing) mode face.now }
{
    match standing {
        Standing::InOff => {}
        Standing::Elsewhere => act.push(Move::Turn),
        _ => reverse_in(mode, face, act),
    }
}

/// Muted to Playing, else Muted.
pub(crate) fn mute_toggled(mode: Mode) -> Mode
    ensures { result ≡ mute_toggled mode }
{
    match mode {
        Mode::Muted => Mode::Playing,
        _ => Mode::Muted,
    }
}

/// Muted to Playing, else the mode itself.
fn unmuted(mode: Mode) -> Mode
    ensures { result ≡ unmuted mode }
{
    match mode {
        Mode::Muted => Mode::Playing,
        _ => mode,
    }
}

/// Paused to Playing, else Paused.
pub(crate) fn pause_toggled(mode: Mode) -> Mode
    ensures { result ≡ pause_toggled mode }
{
    match mode {
        Mode::Paused => Mode::Playing,
        _ => Mode::Paused,
    }
}
