//! Journals of a lock manager: a book over any lock core, which records the commands that the core accepted with
//! their replies; and the audit of such a history, which finds the first reply that isn't the machine's.
#![tactic(auto)]

mod auditing;
mod book;
mod comparing;
mod entry;
pub mod laws;
mod room;

pub use auditing::{AuditFault, audit, replay};
pub use book::{Book, Sight, copy_ask};
pub use entry::Entry;
