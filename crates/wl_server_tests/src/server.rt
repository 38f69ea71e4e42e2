//! What the contracts can't show: that connections over streams in memory and over loopback go as they should.

pub mod crowds;
pub mod dropped;
mod endings;
pub mod fences;
mod frames;
mod growth;
pub mod hooks;
pub mod hosts;
pub mod loopback;
pub mod peers;
mod relays;
pub mod streams;
mod taker;

use crate::lists::assert_lists;
use std::test::Fail;
use wl_server::Gate;

const OPEN: &[u8] = b"{\"id\":1,\"op\":\"open\",\"url\":\"https://a.test/\"}";

/// A gate that nobody stands at.
struct NoHooks;

impl Gate for NoHooks {
    fn enter(&self, _connection: u64) {}

    fn answered(&self, _connection: u64, _count: u64) {}
}

#[test]
fn servers_do_the_lists(rt: HostRuntime) -> Result<(), Fail> {
    assert_lists(&rt, rt.alloc(), endings::LISTS)?;
    assert_lists(&rt, rt.alloc(), relays::LISTS)?;
    assert_lists(&rt, rt.alloc(), peers::LISTS)?;
    assert_lists(&rt, rt.alloc(), fences::LISTS)
}
