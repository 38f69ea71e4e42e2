//! The world of a script: the managers of all buckets of all origins, and what each label is.
#![tactic(auto)]

mod agent_index;
mod answer;
mod cores;
mod engine;
mod label;
mod labels;
pub mod laws;
mod opaque;
mod open_label;
mod origin;
mod realm;
mod requests;
mod steps;
mod supplies;

pub use engine::Engine;
