//! The tests of the services and the server, from outside: what their contracts can't show.
//!
//! Threads open and ask at once, and connections come over streams in memory and over loopback. Each public call is
//! made once and its answer compared, each generic at a concrete type, and each growth of memory is refused in turn.
#![tactic(auto)]

#[cfg(test)]
mod flags;
#[cfg(test)]
mod lists;
#[cfg(test)]
mod scene;
#[cfg(test)]
mod server;
#[cfg(test)]
mod service;
