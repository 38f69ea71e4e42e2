//! The session of an agent: what was last reported to it of its requests, and what its next reply tells.
//!
//! A session does no work itself. `plan` says what a message asks for, the caller does that, and `finish_changed`
//! makes the reply from the outcome and from the phases that the caller found.
#![tactic(auto)]

mod last_reported;
pub mod laws;
mod numbers;
mod outcomes;
mod plan;
mod session;
mod upkeep;

pub use numbers::arrange;
pub use outcomes::carries_notices;
pub use plan::{Action, Plan};
pub use session::{Session, SessionOf};
pub use upkeep::{AtOnce, InTime, Upkeep};
