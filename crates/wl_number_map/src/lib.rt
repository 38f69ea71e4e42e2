//! Values by number: a few stand together, and once there are more, all are found by hash. Contracts see them in the
//! order of the numbers.
#![tactic(auto)]

mod few;
mod map;
mod rows;
mod store;

pub use map::NumberMap;
pub use rows::Rows;
