//! A live session as a whole: definitions and laws, no code.
//!
//! - Each of the four activities has its promise, over what it owns alone: what audio, OSC and MIDI
//!   did is said in `specs/Audio`, `specs/Osc` and `specs/Midi`, and what the saver did beside its
//!   activity. No promise speaks of another activity, and none of a moment at which two ran.
//! - The activities run from what was made (`HaveRun`), their ends meet (`AreMet`), and the session
//!   is settled. Each is a step, and what the next one needs is a law.
//! - A session of which all this holds is whole (`IsWholeSession`): its journal has each accepted
//!   command once, and output, replies and files are those of one looper that replays it.
//! - A reply that no command of OSC asked for never comes.
//!
//! Begin with `specs/Session`, then `specs/Whole`; `laws` has what holds. The rules are "The
//! activities of a session" and "A whole session" in docs/rules.md.
#![tactic(auto)]

mod laws;

pub use laws::{
    a_session_that_has_met_may_be_settled, a_settled_session_is_whole,
    each_reply_of_a_session_has_a_return_address, the_ends_of_a_session_are_of_its_rings,
};
