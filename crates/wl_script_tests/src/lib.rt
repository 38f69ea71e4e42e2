//! The tests of origins, buckets, realms, the codec, sessions and scripts, from outside: what their contracts can't
//! show.
//!
//! Texts that are for people, readers and writers that fail, and calls that have the memory or are refused it. Each
//! public call is made once and its answer compared, and each growth of memory is refused in turn.
#![tactic(auto)]

#[cfg(test)]
mod codec;
#[cfg(test)]
mod keys;
#[cfg(test)]
mod lists;
#[cfg(test)]
mod realm;
#[cfg(test)]
mod script;
#[cfg(test)]
mod session;
