//! A settlement cell: one atomic word that holds the phase of one request.
//!
//! Its keeper settles it under the manager's lock, its owner takes a granted lock without any, and watches look.
//! docs/CELLS.md has the rule that holds between any two steps, and what it does not say. No call here waits,
//! loops, or makes a step twice.
#![tactic(auto)]

mod handle;
mod keeper;
pub mod laws;
mod open;
mod owner;
mod plays;
mod view;
mod watch;
mod word;

pub use crate::keeper::Keeper;
pub use crate::open::cell;
pub use crate::owner::{Owner, Taking};
pub use crate::watch::{Watch, agree};
