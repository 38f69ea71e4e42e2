//! Event loops that serve WebSockets: a few threads, each with its connections, and no thread a connection.
//!
//! Who answers over a connection is made by a `Host`. Whoever changes something for a connection of another loop marks
//! it in that loop's `Ring`, and once its own turn is over wakes that loop, if it sleeps; so nobody waits for a peer.
//! Connections that tell each other again and again meet on one loop (`Lobby`).
#![tactic(auto)]

mod accepting;
mod affinity;
mod connection;
mod corkable;
mod event_loop;
mod farewell;
mod host;
mod lobby;
mod rules;
mod seat;
mod served;
mod shared;
mod talk;
mod transport;
mod transport_listener;

pub use crate::event_loop::EventLoop;
pub use crate::host::{AcceptFault, Event, Host, Listener, Place, Ring};
pub use crate::lobby::Lobby;
pub use crate::shared::{LoopSetup, Shared, setup};
pub use crate::transport_listener::TransportListener;
