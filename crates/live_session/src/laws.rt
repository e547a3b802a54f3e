//! What holds of a session, step by step.

ghost use Rattle.std.specs.Prelude.{◌≡◌, ◌++◌, Bool, List, None};
ghost use Rattle.std.specs.List.{AllByRecursion};
ghost use Rattle.sl_commands.specs.declared.Reply.{Reply};
ghost use Rattle.midi_bindings.specs.declared.binding.Binding.{Binding};
ghost use Rattle.engine_steps.specs.Engines.{Beginning};
ghost use Rattle.audio_ends.specs.declared.state.AudioState.{AudioState};
ghost use Rattle.live_rings.specs.declared.meeting.MetRings.{MetRings};
ghost use Rattle.settling.specs.Settled.{LeftOf, SettledOf, AreLeft, MaySettle, Settled};
ghost use Rattle.live_session.specs.Osc.{OscAt, ToldMore};
ghost use Rattle.live_session.specs.Session.{SessionOf, HaveRun, SameRings, AreMet, unsettled_of, told_behind};
ghost use Rattle.live_session.specs.Whole.{HasReturn, IsWholeSession, outside_of, outside_behind, given_by};

use sl_ports::Keeper;

/// The ends that four activities give back are those of the rings that they were given, two by two.
pub fn the_ends_of_a_session_are_of_its_rings<P: Keeper>()
    ensures { (b : Beginning) → (bindings : List Binding) → (s t : SessionOf P) →
        (state : AudioState) → (memory : Bool) → HaveRun P.Keeper b bindings s t state memory →
        SameRings t }
{}

/// Once the ends of each ring have met, the session may be settled, whatever was told before.
pub fn a_session_that_has_met_may_be_settled<P: Keeper>()
    ensures { (b : Beginning) → (bindings : List Binding) → (s t : SessionOf P) →
        (state : AudioState) → (memory : Bool) → (m : MetRings) → (told : List Reply) →
        HaveRun P.Keeper b bindings s t state memory → AreMet t m →
        MaySettle (unsettled_of t told) m }
{}

/// Each reply has a return address: those that OSC took, so that none was strange, and those that
/// are told by settling. For only OSC asks, and each of its commands that asks was accepted with
/// its address.
pub fn each_reply_of_a_session_has_a_return_address<P: Keeper>()
    ensures strange { (b : Beginning) → (bindings : List Binding) → (s t : SessionOf P) →
        (state : AudioState) → (memory : Bool) → (m : MetRings) →
        (h : HaveRun P.Keeper b bindings s t state memory) → AreMet t m →
        h.osc.strange ≡ None }
    ensures settled { (b : Beginning) → (bindings : List Binding) → (s t : SessionOf P) →
        (state : AudioState) → (memory : Bool) → (m : MetRings) → (rings : LeftOf) →
        (before : List Reply) → (u : SettledOf P) →
        HaveRun P.Keeper b bindings s t state memory → AreMet t m → AreLeft m rings →
        (st : Settled P.Keeper b.settings.rate (unsettled_of t before) rings u) →
        AllByRecursion (HasReturn t.osc.sender.account.tally.accepted)
        (told_behind t rings st.replies) }
{}

/// A session whose activities ran, whose ends met, which was settled and of which the replies were
/// told is whole: all of it is that of one looper that replays the journal.
pub fn a_settled_session_is_whole<P: Keeper>()
    ensures { (b : Beginning) → (bindings : List Binding) → (s t : SessionOf P) →
        (state : AudioState) → (memory : Bool) → (m : MetRings) → (rings : LeftOf) →
        (before : List Reply) → (u : SettledOf P) → (osc : OscAt) →
        HaveRun P.Keeper b bindings s t state memory → AreMet t m → AreLeft m rings →
        (st : Settled P.Keeper b.settings.rate (unsettled_of t before) rings u) →
        ToldMore (told_behind t rings st.replies) t.osc osc →
        IsWholeSession P.Keeper b s.audio.ends.channels bindings (outside_of s)
        (outside_behind t u osc) (given_by t u osc) state memory }
{}
