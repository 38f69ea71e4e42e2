//! A lock manager that threads share: a journal under one lock, and a settlement cell for each request, which its
//! owner looks at and takes without the lock.
//!
//! `Locked` is what lies under the lock. Its type says what holds whenever the lock is free, and its commands what
//! each does. `Manager`, `Agent` and `Ticket` are thin: their calls take the lock and call `Locked`. Since no clause
//! can name what is under a lock that others share, their contracts speak of the caller's share and of the shape of
//! the answer alone; tests show the rest.
#![tactic(auto)]

mod agent;
mod alarm;
mod coarse_clock;
mod count;
mod inbox;
mod keepers;
mod lock_list;
mod locked;
mod manager;
mod ring;
mod ticket;

pub use crate::agent::Agent;
pub use crate::alarm::Alarm;
pub use crate::coarse_clock::CoarseClock;
pub use crate::count::{Count, Ledgered, Loose, Recent, Uncounted};
pub use crate::inbox::Inbox;
pub use crate::lock_list::{LockList, LockRow};
pub use crate::locked::{Leaving, Locked, TallyFault};
pub use crate::manager::{Manager, Visitor};
pub use crate::ring::{Bell, Ring};
pub use crate::ticket::Ticket;
