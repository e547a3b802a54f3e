//! The first fault of a packet: laws of the readings in osc_reader, each the contract of a function
//! with an empty body.
//!
//! - `faults`: whatever stands from the place of a fault on, no fault stands before it: what is
//!   there would be read. So two packets that agree in front of both their faults have them at one
//!   place.
//!
//! That a fault stands in its packet is a law of osc_reader. The rules are "OSC packets" in
//! docs/formats.md.
#![tactic(auto)]

mod faults;

pub use faults::what_stands_before_a_fault_is_read;
