//! The tests of the maps, types, cores and journals, from outside: what their contracts can't show.
//!
//! A contract says what a call answers, not that it has the memory to. So each public call is made here once and its
//! answer compared, each generic at a concrete type, and each growth of memory is refused in turn. They stand in a
//! crate of their own, since a crate is proved once more with its tests.
#![tactic(auto)]

#[cfg(test)]
mod cores;
#[cfg(test)]
mod journal;
#[cfg(test)]
mod numbers;
#[cfg(test)]
mod types;
