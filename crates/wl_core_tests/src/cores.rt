//! That calls succeed with ample memory, on the plain core and on the indexed one, the limits in use, and worked runs.

mod copies;
mod growth;
mod limits;
mod lists;
mod random;
mod refusals;
mod runs;
mod seeds;

pub use lists::{LISTS, run_list};
