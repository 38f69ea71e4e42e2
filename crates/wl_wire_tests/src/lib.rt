//! The tests of what a server that pushes is made of, from outside: what their contracts can't show.
//!
//! Each public call is made once and its answer compared. How the event loops serve peers over sockets is tried from
//! outside the program (`tests/run_daemon`).
#![tactic(auto)]

#[cfg(test)]
mod admission;
#[cfg(test)]
mod lists;
#[cfg(test)]
mod liveness;
#[cfg(test)]
mod wires;
