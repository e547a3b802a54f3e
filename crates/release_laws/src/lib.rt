//! Releases of a whole run stand behind their saves: laws of `run` in `looper_rules`, each the
//! contract of a function with an empty body.
//!
//! - `releases`: a reply of a release answers a save whose entry stands before it, at no later
//!   frame. No release answers two saves, so no more are answered than the saver has entries. Where
//!   as many are, each of the saver's entries answers one, and before each stand more saves than
//!   releases.
//! - `live`: in a session whose engine and rings are in step as many are.
//!
//! Laws of replies, saves and pins in general stand in run_laws below. The rules are "Saves" in
//! docs/rules.md.
#![tactic(auto)]

mod live;
mod releases;

pub use live::a_live_session_releases_each_save_behind_it;
pub use releases::{
    a_release_answers_a_save_before_it, each_release_answers_one_where_as_many_are_answered,
};
