//! The status of a server, over HTTP: its health, what it counts, which locks are held and asked for, and a page that
//! draws these.
//!
//! `find_route` decides which request is answered by what. `StatusServer` answers on a thread of its own, from an
//! `Overview` of the server.
#![tactic(auto)]

mod admission;
mod answering;
mod credentials;
mod hosts;
mod metrics;
mod overview;
mod page;
mod routing;
mod serving;
mod visitor;

pub use crate::admission::Admission;
pub use crate::hosts::Hosts;
pub use crate::metrics::{Metric, Metrics};
pub use crate::overview::Overview;
pub use crate::routing::{Head, Refusal, Resource, Route, find_route, health_status};
pub use crate::serving::{StatusEnd, StatusServer};
