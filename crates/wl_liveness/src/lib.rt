//! When a connection of a server is pinged, and when it ends: the time that it has for its handshake, how long it may
//! be silent, and how long a connection that is closing is still read from.
//!
//! Times are milliseconds since some start, the same for all calls.
#![tactic(auto)]

mod limits;
mod liveness;

pub use limits::Limits;
pub use liveness::{Due, Liveness};
