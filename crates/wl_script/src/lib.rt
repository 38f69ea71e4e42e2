//! Runs a script: each line of the input is answered by one line of output, as soon as its LF was read.
//!
//! A run takes its input in whatever pieces the reader gives, and holds no more of it than one read and the line
//! that is not finished yet. Every reply is one write.
#![tactic(auto)]

mod answerer;
mod auditing;
mod discard;
mod fault;
mod feeding;
pub mod laws;
mod limits;
mod replying;
mod running;
mod standard;
mod streams;

pub use answerer::Answerer;
pub use auditing::audit;
pub use discard::Discard;
pub use fault::ScriptFault;
pub use limits::Limits;
pub use replying::write_all;
pub use running::{LIMITS, run, run_lines, run_with};
pub use standard::{Reader, Writer};
pub use streams::{Failed, Input, Output};
