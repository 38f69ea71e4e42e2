//! Agents, tickets and watches on several threads.

mod beside;
mod ends;
mod handing;
mod races;
mod thefts;
mod turns;
