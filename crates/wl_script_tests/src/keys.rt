//! Origins of URLs, names of buckets, and the managers that both name.

mod buckets;
mod growth;
mod managers;
mod origins;

use crate::lists::{Rows, assert_lists, part};
use buckets::{DEFAULT, NAMES, RISING_NAMES};
use managers::{MANAGERS, RISING_KEYS};
pub use managers::{add_key, key_at};
use origins::{ONE_ORIGIN, ORIGINS, RISING};
use std::alloc::Global;
use std::test::Fail;
use wl_origin::{BucketFault, KeyFault, ManagerFault};
use wl_types::Memory;

/// Faults have their texts: a bucket's, a manager's and a key's.
const FAULTS: &str = "\
bucket_faults -> not the name of a bucket, out of memory
manager_faults -> not a URL, not the name of a bucket, out of memory
key_faults -> out of memory
";

/// Adds what a call says of a URL, a bucket or both.
pub fn do_call(alloc: Global, came: &mut String, call: &str) -> Result<(), Memory> {
    let (word, behind) = part(call);
    match word {
        "origin" => origins::add_origin(alloc, came, behind),
        "origins" => origins::add_origins(alloc, came, behind),
        "name" => buckets::add_name(alloc, came, behind),
        "names" => buckets::add_names(alloc, came, behind),
        "copy" => buckets::add_copy(alloc, came, behind),
        "manager" => managers::add_managers(alloc, came, behind),
        "keys" => managers::add_keys(alloc, came, behind),
        _ => add_faults(came, word),
    }
}

fn add_faults(came: &mut String, word: &str) -> Result<(), Memory> {
    match word {
        "bucket_faults" => {
            write!(came, "{}, {}", BucketFault::BadBucket, BucketFault::Memory)?;
        }
        "manager_faults" => {
            let (url, bucket) = (ManagerFault::BadUrl, ManagerFault::BadBucket);
            write!(came, "{url}, {bucket}, {}", ManagerFault::Memory)?;
        }
        _ => write!(came, "{}", KeyFault::Memory)?,
    }
    Ok(())
}

/// How the first of two stands to the other: whether it is that, is less, and the other is greater.
fn order(is_one: bool, is_less: bool, is_greater: bool) -> &'static str {
    match (is_one, is_less, is_greater) {
        (true, false, false) => "one",
        (false, true, true) => "rising",
        (false, false, false) => "falling",
        _ => "at odds",
    }
}

#[test]
fn a_url_and_a_bucket_name_a_manager(rt: HostRuntime) -> Result<(), Fail> {
    assert_lists(
        &rt,
        &rt,
        Rows::Keys,
        &[
            ORIGINS,
            ONE_ORIGIN,
            RISING,
            NAMES,
            DEFAULT,
            RISING_NAMES,
            MANAGERS,
            RISING_KEYS,
            FAULTS,
        ],
    )?;
    Ok(())
}
