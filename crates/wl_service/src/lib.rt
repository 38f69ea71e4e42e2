//! A lock service: the managers of all buckets of all origins, each under a lock of its own, in a directory under
//! another.
//!
//! A client is an agent of its bucket's manager, or, where the origin is opaque and so has none, an agent that is
//! refused. No call of a client that is open takes the directory's lock.
#![tactic(auto)]

mod client;
mod directory;
mod fault;
mod listing;
mod opaque;
mod service;
mod watching;

pub use client::{Client, Leaving, Ticket};
pub use directory::{Core, Keeping};
pub use fault::OpenFault;
pub use listing::{ManagerLocks, ServiceLocks};
pub use service::Service;
