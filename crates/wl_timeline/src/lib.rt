//! Draws the history of a script: a lane for each label, with a bar for each of its requests.
//!
//! A script is answered by the engine that `wl_script::run` has. Beside it a core for each manager does the same
//! commands, and tells which requests each line changed. What the picture shows is no matter of contracts; which lines
//! it is of, which fault ends it, and that texts of the script can't break out of it, is.
#![tactic(auto)]

mod bars;
mod drawing;
mod escaping;
mod following;
mod history;
mod layout;
mod manager;
mod naming;
mod sayings;
mod style;
mod svg;

pub use drawing::timeline;
