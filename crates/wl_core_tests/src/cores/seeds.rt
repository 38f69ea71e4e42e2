//! What a core hashes names by.

use std::test::Fail;
use wl_index::random_seed;
use wl_test_support::NoRandom;

#[test]
fn there_is_no_seed_without_random_words(rt: HostRuntime) -> Result<(), Fail> {
    let without = NoRandom { alloc: rt.alloc() };
    assert!(rt; random_seed(&without).is_err());
    assert!(rt; random_seed(&rt).is_ok());
    Ok(())
}
