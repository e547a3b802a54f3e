//! The moves of a verb.

ghost use Rattle.std.specs.Prelude.{◌≡◌, ◌≤◌, ◌==◌, ℕ, not, [], ◌∷◌, ◌++◌, length};
ghost use Rattle.sl_base.specs.Sounds.{Sound};
ghost use Rattle.looper_rules.specs.Loop.{Loop, face_of};
ghost use Rattle.looper_rules.specs.Verbs.{acts};
ghost use Rattle.loop_states.specs.Moves.{carry_all};
ghost use Rattle.loop_states.specs.Deciding.{moves_in, waiting_moves, moves_from, moves_of, mode_behind_wait};

use crate::act::{Act, Move};
use crate::rows::{
    layer_row, length_row, mode_row, mute_off_row, mute_toggled, pause_toggled, record_row,
    reverse_row, standing_of, start_row,
};
use sl_commands::{Face, Mode, Verb};

/// The moves of a verb in a mode other than WaitStart.
fn moves_in(verb: Verb, mode: Mode, round: bool, face: &Face, act: &mut Act)
    requires room { length act.old ≤ 1 }
    requires base { face.now.base ≤ face.now.length }
    ensures { act.new ≡ act.old ++ moves_in verb mode round face.now }
{
    let standing = standing_of(verb, mode);
    match verb {
        Verb::Rec => record_row(standing, act),
        Verb::Overdub => layer_row(standing, Verb::Overdub, mode, face, act),
        Verb::Multiply => length_row(standing, Verb::Multiply, mode, round, face, act),
        Verb::Insert => length_row(standing, Verb::Insert, mode, round, face, act),
        Verb::Replace => layer_row(standing, Verb::Replace, mode, face, act),
        Verb::Substitute => layer_row(standing, Verb::Substitute, mode, face, act),
        Verb::Mute => mode_row(standing, mute_toggled(mode), Mode::Muted, mode, face, act),
        Verb::MuteOn => mode_row(standing, Mode::Muted, Mode::Muted, mode, face, act),
        Verb::MuteOff => mute_off_row(standing, mode, act),
        Verb::OneShot => start_row(standing, Mode::OneShot, mode, face, act),
        Verb::Trigger => start_row(standing, Mode::Playing, mode, face, act),
        Verb::Reverse => reverse_row(standing, mode, face, act),
        Verb::Pause => mode_row(standing, pause_toggled(mode), Mode::Paused, mode, face, act),
        Verb::Undo => act.push(Move::Undo),
        Verb::Redo => act.push(Move::Redo),
        Verb::UndoAll => act.push(Move::UndoAll),
        Verb::RedoAll => act.push(Move::RedoAll),
    }
}

/// The mode behind WaitStart, over so many layers.
fn mode_behind_wait(layers: u32) -> Mode
    ensures { result ≡ mode_behind_wait layers }
{
    if layers == 0 {
        Mode::Off
    } else {
        Mode::Playing
    }
}

/// The moves of a verb in WaitStart.
fn waiting_moves(verb: Verb, round: bool, face: &Face, act: &mut Act)
    requires none { act.old ≡ [] }
    requires base { face.now.base ≤ face.now.length }
    ensures { act.new ≡ waiting_moves verb round face.now }
{
    act.push(Move::LeaveWait);
    match verb {
        Verb::Rec => {}
        _ => moves_in(verb, mode_behind_wait(face.layers), round, face, act),
    }
}

/// The moves of a verb in this mode.
fn moves_from(verb: Verb, mode: Mode, round: bool, face: &Face, act: &mut Act)
    requires none { act.old ≡ [] }
    requires base { face.now.base ≤ face.now.length }
    ensures { act.new ≡ moves_from verb mode round face.now }
{
    match mode {
        Mode::WaitStart => waiting_moves(verb, round, face, act),
        _ => moves_in(verb, mode, round, face, act),
    }
}

/// What a verb does to a loop with this face, where `round` says whether `multiply` and `insert`
/// end at a stop.
#[tactic(auto, using(crate::proofs::Table::table_of))]
pub fn decide(face: &Face, round: bool, verb: Verb) -> Act
    requires base { face.now.base ≤ face.now.length }
    ensures moves { result ≡ moves_of verb round face.now }
    ensures few { length result ≤ 4 }
    ensures table { (reach : ℕ) (l : Loop Sound) → face_of l ≡ face.now →
        (l.controls.round == 0) ≡ not round → carry_all reach result l ≡ acts verb reach l }
{
    let mut act = Act::new();
    moves_from(verb, face.mode, round, face, &mut act);
    act
}
