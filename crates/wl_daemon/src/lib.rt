//! The server that people run: each connection is an agent of its own, whose messages are answered one by one, and
//! which is told what changed without being asked if it wants that.
//!
//! `Member` is what answers over a connection, `Hall` what makes one for each, and `serve` runs the event loops. Who
//! may come in is read by `read_rules`, and again by `serve` where the file of tokens has changed. `bind_socket`
//! listens at a path of this machine's file system.
#![tactic(auto)]

mod counts;
mod desk;
mod entry;
mod epoch;
mod fencing;
mod hall;
mod input;
mod lock_file;
mod locks;
mod log_lines;
mod log_queue;
mod loop_state;
mod member;
mod overview;
mod ring;
mod said;
mod serving;
mod socket_file;
mod threads;
mod token_file;
mod watching;

pub use crate::desk::Desk;
pub use crate::entry::{
    EntryFault, check_address, may_listen, places_for, read_rules, rules_with, trusted_scope,
};
pub use crate::epoch::{EpochFault, next_epoch};
pub use crate::hall::Hall;
pub use crate::loop_state::LoopState;
pub use crate::member::Member;
pub use crate::ring::LoopRing;
pub use crate::serving::{ServeFault, Setup, serve};
pub use crate::socket_file::{SocketFault, SocketFile, bind_socket};
pub use crate::token_file::{FileFault, TokenFile};
pub use crate::watching::WatchedTokens;
