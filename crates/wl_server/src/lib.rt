//! A lock service over WebSockets: each connection is an agent of its own, whose messages are answered one by one.
//!
//! `talk` is one conversation, over a small trait for the connection and one for what answers; `serving` runs it over a
//! WebSocket, and `listening` on a thread for each connection. `relay` is the other end: it sends the lines of a reader
//! and writes their replies.
#![tactic(auto)]

mod asking;
mod caller;
mod connection_limit;
mod dispatch;
mod fault;
mod fences;
mod lines;
mod listening;
mod open_client;
mod opener;
mod peer;
mod peer_speaker;
mod piece;
mod relaying;
mod requests;
mod serving;
mod socket;
mod talk;
mod transport;
mod writing;

pub use crate::fault::{ListenFault, RelayFault, ServeEnd, ServeFault, Served};
pub use crate::fences::{Fence, FenceCounter, fenced_text, words_compare_as_tokens};
pub use crate::listening::serve;
pub use crate::opener::{NoAnswer, NotOpened, Opener};
pub use crate::peer::Peer;
pub use crate::relaying::relay;
pub use crate::serving::serve_one;
pub use crate::talk::Gate;
pub use wl_codec::Scratch;
