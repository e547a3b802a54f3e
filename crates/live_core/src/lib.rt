//! A live session: it is made, its four activities are joined, the ends of its rings meet, and it
//! is settled.
//!
//! - `live_core` runs a session over its devices to the end. The session is whole (`HasEnded`):
//!   each accepted command stands in the journal once, and output, replies and files are those of
//!   one looper that replays it. The status is the first that holds in the order of the rules.
//! - `run_session` is the first half, up to where the rings have met. Behind it all is on one
//!   thread.
//! - What serves is handed in (`live_joining`), so this is proved whatever serves by its contract.
//! - All memory that isn't an activity's own is taken before the devices are used.
//!
//! Begin with `live` and `session`, then `preparing`, `closing`, `telling` and `ending`. The rules
//! are "The activities of a session", "Settling", "A whole session" and "How a session ends" in
//! docs/rules.md.
#![tactic(auto)]

mod closing;
mod devices;
mod ending;
mod live;
mod preparing;
mod run;
mod session;
mod starting;
mod status;
mod telling;

pub use closing::Closed;
pub use devices::Devices;
pub use ending::LiveEnd;
pub use live::live_core;
pub use session::{NotBegun, run_session};
pub use status::{LiveStatus, status_of};
pub use telling::LinkTeller;
