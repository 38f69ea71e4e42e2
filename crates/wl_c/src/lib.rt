//! The engine of scripts inside other programs: one world behind a handle that C holds, a line at a time.
//!
//! `clients/c/weblocks.h` is what C sees of it. Nothing here waits, starts a thread or asks the system for anything but
//! memory.
#![tactic(auto)]

mod exports;
mod fault;
mod handle;
mod loose;
mod pointers;
mod reply;
mod seed;
mod world;

pub use exports::{weblocks_answer, weblocks_audit, weblocks_free, weblocks_new};
