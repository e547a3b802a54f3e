//! Turns of audio, one behind another.

ghost use Rattle.std.specs.Prelude.{◌≡◌, ◌<◌, ◌≤◌, ◌⊎◌, ◌++◌, true, false, List};
ghost use Rattle.sl_base.specs.Limits.{max_session_frames};
ghost use Rattle.sl_base.specs.Counting.{Rose};
ghost use Rattle.sl_base.specs.Sounds.{Sound};
ghost use Rattle.sl_ports.specs.declared.SinkAnswer.{SinkAnswer};
ghost use Rattle.sl_ports.specs.declared.SinkAnswer.TheVariants.{Done};
ghost use Rattle.looper_rules.specs.Reached.{IsBeginning};
ghost use Rattle.engine_steps.specs.Engines.{Beginning, first_engine};
ghost use Rattle.live_steps.specs.Passed.{none_passed};
ghost use Rattle.audio_ends.specs.declared.fill.Halt.{Halt};
ghost use Rattle.audio_ends.specs.declared.rings.RingEnds.{RingEnds};
ghost use Rattle.audio_ends.specs.Ends.{passed, HasLimits, MayTurn};
ghost use Rattle.audio_ends.specs.declared.state.Turn.{Turn};
ghost use Rattle.audio_ends.specs.Did.{AudioAt, AudioDid, HasMore};
ghost use Rattle.audio_ends.specs.States.{StateCause};
ghost use Rattle.audio_ends.specs.Turned.{Turned};

/// Turns may begin with a new engine and new rings that have the limits of a live session.
pub fn turns_may_begin()
    ensures { (b : Beginning) → (a : RingEnds) → IsBeginning b.settings b.chunks b.initial →
        passed a ≡ none_passed → a.quit ≡ false → HasLimits b.quota a →
        MayTurn (first_engine b) a }
{}

/// What was done, and what was done behind it where more may come, is one doing over both lists of
/// frames.
pub fn what_audio_did_composes()
    ensures { (input output more out : List Sound) → (halt last : Halt) → (answer : SinkAnswer) →
        (x y z : AudioAt) → HasMore halt → AudioDid input output halt Done x y →
        AudioDid more out last answer y z →
        AudioDid (input ++ more) (output ++ out) last answer x z }
{}

/// The state that a turn tells has its cause: a fault only where its count rose in the turn, an end
/// only where the source is there, and `More` only where nothing else holds.
pub fn each_state_has_its_cause()
    ensures { (x y : AudioAt) → (t : Turn) → Turned x y t → StateCause x y t.state }
{}

/// A turn played fewer frames than a period only where the source gave nothing for now, was at its
/// end or failed, or all frames of a session are done.
pub fn a_short_turn_has_its_cause()
    ensures { (x y : AudioAt) → (t : Turn) → Turned x y t → t.frames < x.ends.most →
        Rose x.source.idles y.source.idles ⊎ (y.source.ended ≡ true)
        ⊎ Rose x.source.faults y.source.faults ⊎ (max_session_frames ≤ y.engine.frames) }
{}
