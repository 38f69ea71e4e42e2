//! The words of a lock manager: texts, names, modes, phases, asks, answers and refusals.
//!
//! Everything here is plain data. Text, names and lists of locks are seen by contracts as lists.
#![tactic(auto)]

mod answers;
mod ask;
mod client;
mod infos;
pub mod laws;
mod memory;
mod phases;
mod refusal;
mod text;
mod words;

pub use answers::{AbortAnswer, ReleaseAnswer, TakeAnswer};
pub use ask::Ask;
pub use client::client_text;
pub use infos::{Infos, LockInfo, Snapshot};
pub use memory::Memory;
pub use phases::{Change, Numbers, Phase};
pub use refusal::Refusal;
pub use text::{Name, Text};
pub use words::{Kind, Mode, Reason};
