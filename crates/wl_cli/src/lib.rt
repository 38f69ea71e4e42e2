//! The words of the program's command line: which job they ask for, or what is wrong with them.
//!
//! They stand in a crate of their own, so that what `clap` says of words is read here alone, and not beside all that
//! the program does.
#![tactic(auto)]

mod arguments;
mod command;
mod daemon;
mod daemon_command;
mod endpoint;
mod epoch;
mod job;
mod parts;
mod texts;

pub use daemon::{DaemonOptions, MOST_LOOPS};
pub use endpoint::{Endpoint, addresses_of};
pub use epoch::EpochSource;
pub use job::{Job, UsageFault, job_of};
