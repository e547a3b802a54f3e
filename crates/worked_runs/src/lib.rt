//! Whole runs over files and a console in memory. This crate has tests alone.
//!
//! - `sounds` has runs of `render` whose samples were worked out by hand from the rules.
//! - `saves` has runs that save loops and sessions, and looks at what they saved.
//! - `faults` has wrong words, bad files and limits, and runs in which one call fails.
//! - `shows` has looks at a session, good ones and bad ones.
//! - `calls` makes the public calls below a run once, with ample memory.
//!
//! `tables` has the form of a run: what it is given, and how it has to end.
#![tactic(auto)]

#[cfg(test)]
mod calls;
#[cfg(test)]
mod faults;
#[cfg(test)]
mod saves;
#[cfg(test)]
mod shows;
#[cfg(test)]
mod sounds;
#[cfg(test)]
mod tables;
