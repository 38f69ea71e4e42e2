//! The lock machine over indexes: a core on which an event costs O(log n) for each request, lock, name, agent or signal
//! that it changes.
//!
//! It has three tables: the requests by number, the queues by name, and the agents with the lists by which what they
//! have is found. An event notes its changes and the queues that it touched, which are processed at its end.
#![tactic(auto)]

mod agent;
mod agents;
mod copies;
mod ending;
mod event;
pub mod index;
mod listing;
mod locks;
mod order;
mod queue;
mod queues;
mod request;
mod requests;
mod seed;
mod snapshots;

pub use index::IndexCore;
pub use seed::random_seed;
