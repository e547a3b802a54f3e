//! Live sessions over devices in memory, from the words to the last line. This crate has tests
//! alone.
//!
//! - `sessions` has sessions that end by themselves: what is played, written, entered, sent, saved
//!   and told was worked out by hand from the rules.
//! - `failing` has sessions in which a call of a device, of the keeper or of the console fails.
//! - `meetings` has sessions whose devices wait for one another: packets come at a given point, all
//!   four activities meet, or a ring is full at the end.
//!
//! `session` has the form of a session, what it is given and how it has to end, and `texts` its
//! packets and files. `devices` follow `scripts`, which wait for `flags`. The rules are "Settling"
//! and "How a session ends" in docs/rules.md, and "Statuses" and "The console" in docs/formats.md.
#![tactic(auto)]

#[cfg(test)]
mod devices;
#[cfg(test)]
mod failing;
#[cfg(test)]
mod flags;
#[cfg(test)]
mod meetings;
#[cfg(test)]
mod scripts;
#[cfg(test)]
mod session;
#[cfg(test)]
mod sessions;
#[cfg(test)]
mod texts;
