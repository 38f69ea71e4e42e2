//! Each growth refused in turn.

use crate::lists::Scene;
use std::alloc::Global;
use std::test::Fail;
use wl_origin::{BucketFault, BucketName, KeyFault, OriginKey, Standing, key_of};
use wl_test_support::{fail_refused, key, origin_key};
use wl_types::Memory;

/// A URL whose reading is refused memory isn't a bad one.
fn try_key(alloc: Global) -> Result<(), Fail> {
    match key_of(alloc, "https://a.test/") {
        Ok(Standing::Tuple(_)) => Ok(()),
        Ok(Standing::Opaque) | Err(KeyFault::BadUrl) => fail_refused(false),
        Err(KeyFault::Memory) => fail_refused(key_of(alloc, "https://a.test/").is_ok()),
    }
}

fn try_text_of(alloc: Global, key: &OriginKey) -> Result<(), Fail> {
    match key.text(alloc) {
        Ok(_) => Ok(()),
        Err(Memory) => fail_refused(key.text(alloc)?.as_str() == "https://a.test"),
    }
}

/// Whether a core is added.
fn is_added(scene: &mut Scene) -> Result<bool, Fail> {
    let key = key(scene.alloc, "https://a.test/")?;
    Ok(scene.realm.add(key, ()).is_ok())
}

fn try_text(alloc: Global) -> Result<(), Fail> {
    try_text_of(alloc, &origin_key(alloc, "https://a.test/")?)
}

/// A core that is refused memory isn't there, and is when it is added again.
fn try_core(scene: &mut Scene) -> Result<(), Fail> {
    if is_added(scene)? {
        return Ok(());
    }
    let is_as_before = scene.realm.is_empty();
    let is_next_added = is_added(scene)?;
    fail_refused(is_as_before && is_next_added && scene.realm.len() == 1)
}

#[test]
fn a_refused_growth_is_no_bad_url(rt: HostRuntime) -> Result<(), Fail> {
    try_key(rt.alloc())?;
    try_text(rt.alloc())?;
    try_core(&mut Scene::new(rt.alloc()))
}

/// What is wrong with a text as a bucket's name, if anything is.
fn fault_of(alloc: Global, text: &str) -> Option<BucketFault> {
    match BucketName::of(alloc, text) {
        Ok(_) => None,
        Err(fault) => Some(fault),
    }
}

/// A text that is none is told so, whatever the memory.
#[test]
fn a_refused_growth_names_no_bucket(rt: HostRuntime) -> Result<(), Fail> {
    let is_told = matches!(fault_of(rt.alloc(), "Inbox"), Some(BucketFault::BadBucket));
    match fault_of(rt.alloc(), "inbox") {
        None if is_told => Ok(()),
        Some(BucketFault::Memory) if is_told => {
            fail_refused(fault_of(rt.alloc(), "inbox").is_none())
        }
        _ => fail_refused(false),
    }
}
