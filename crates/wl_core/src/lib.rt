//! A lock manager's core: the trait that every representation meets, a plain body over lists, realms of cores by
//! key, and lists of commands run on any core.
#![tactic(auto)]

mod commands;
mod copies;
mod ends;
pub mod laws;
pub mod limits;
pub mod lock_core;
mod names;
mod owners;
pub mod plain;
mod processing;
mod queues;
mod realms;
mod room;
mod snapshots;

pub use commands::{apply, lacks_memory, run_commands};
pub use lock_core::LockCore;
pub use plain::{PlainCore, PlainDraft};
pub use realms::{KeyedRealm, Realm};
pub use room::{clear_list, push_in_room};
pub use wl_machine::{AgentRow, Command, HeldRow, PendingRow, Reply, SignalRow};
pub use wl_types::{AbortAnswer, ReleaseAnswer, TakeAnswer};
