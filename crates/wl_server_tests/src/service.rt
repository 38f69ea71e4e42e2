//! What the contracts can't show: that clients of one origin share a manager and others don't, that calls succeed
//! with ample memory, and that managers go on at once.

mod clients;
mod growth;
pub mod hearing;
pub mod keeping;
pub mod listing;
pub mod opening;
pub mod threads;

use crate::lists::assert_lists;
use std::test::Fail;

const HERE: &str = "https://a.test/";

const ELSEWHERE: &str = "http://a.test/";

#[test]
fn services_do_the_lists(rt: HostRuntime) -> Result<(), Fail> {
    assert_lists(&rt, rt.alloc(), opening::LISTS)?;
    assert_lists(&rt, rt.alloc(), clients::LISTS)?;
    assert_lists(&rt, rt.alloc(), keeping::LISTS)?;
    assert_lists(&rt, rt.alloc(), listing::LISTS)?;
    assert_lists(&rt, rt.alloc(), hearing::LISTS)?;
    assert_lists(&rt, rt.alloc(), threads::LISTS)
}
