//! The managers of a URL's buckets.

use super::order;
use std::alloc::Global;
use wl_origin::{ManagerFault, ManagerKey, manager_of, manager_of_text};
use wl_types::{Memory, Text};

/// Each URL and bucket with the origin and the bucket of the manager that they name, `opaque` where there is none, or
/// what is wrong with them: where the bucket is lent, and where it is handed over. A bad bucket is told of an opaque
/// origin too, and a bad URL comes before it.
pub const MANAGERS: &str = "\
manager https://a.test/|default -> https://a.test default, https://a.test default
manager HTTPS://A.test:443/x|inbox -> https://a.test inbox, https://a.test inbox
manager http://a.test:8080/|0 -> http://a.test:8080 0, http://a.test:8080 0
manager data:text/plain,x|inbox -> opaque, opaque
manager https://a.test/|Inbox -> not the name of a bucket, not the name of a bucket
manager data:text/plain,x| -> not the name of a bucket, not the name of a bucket
manager no url|inbox -> not a URL, not a URL
manager no url|Inbox -> not a URL, not a URL
";

/// By origin, then bucket.
pub const RISING_KEYS: &str = "\
keys http://a.test:8080/|z https://a.test/|a -> rising
keys https://a.test/|a https://a.test:443/|default -> rising
keys https://a.test:443/|default https://a.test/|inbox -> rising
keys https://a.test/|inbox https://b.test/|a -> rising
";

/// Adds the manager that a URL and a bucket name, by either way to it.
pub fn add_managers(alloc: Global, came: &mut String, call: &str) -> Result<(), Memory> {
    let (url, bucket) = call.split_once('|').unwrap_or((call, ""));
    add_manager(alloc, came, &manager_of(alloc, url, bucket))?;
    came.push_str(", ")?;
    let bucket = Text::of(alloc, bucket)?;
    add_manager(alloc, came, &manager_of_text(alloc, url, bucket))
}

fn add_manager(
    alloc: Global,
    came: &mut String,
    found: &Result<Option<ManagerKey>, ManagerFault>,
) -> Result<(), Memory> {
    match found {
        Ok(Some(key)) => add_key(alloc, came, key),
        Ok(None) => Ok(came.push_str("opaque")?),
        Err(fault) => Ok(write!(came, "{fault}")?),
    }
}

/// Adds the origin of a key, and its bucket.
pub fn add_key(alloc: Global, came: &mut String, key: &ManagerKey) -> Result<(), Memory> {
    came.push_str(key.origin.text(alloc)?.as_str())?;
    came.push_str(" ")?;
    Ok(came.push_str(key.bucket.as_str())?)
}

/// The key of a bucket of a URL's origin, where they have one.
pub fn key_at(alloc: Global, url: &str, bucket: &str) -> Option<ManagerKey> {
    match manager_of(alloc, url, bucket) {
        Ok(key) => key,
        Err(_) => None,
    }
}

/// Adds how two keys stand to each other.
pub fn add_keys(alloc: Global, came: &mut String, call: &str) -> Result<(), Memory> {
    let (first, other) = call.split_once(' ').unwrap_or((call, ""));
    match key_of(alloc, first) {
        Some(first) => add_beside(alloc, came, &first, other),
        None => Ok(came.push_str("no key")?),
    }
}

fn add_beside(
    alloc: Global,
    came: &mut String,
    first: &ManagerKey,
    other: &str,
) -> Result<(), Memory> {
    match key_of(alloc, other) {
        Some(other) => add_order(alloc, came, first, &other),
        None => Ok(came.push_str("no key")?),
    }
}

fn key_of(alloc: Global, call: &str) -> Option<ManagerKey> {
    let (url, bucket) = call.split_once('|').unwrap_or((call, ""));
    key_at(alloc, url, bucket)
}

/// They are at odds where a copy is another key.
fn add_order(
    alloc: Global,
    came: &mut String,
    first: &ManagerKey,
    other: &ManagerKey,
) -> Result<(), Memory> {
    let is_copied = other.copy(alloc)? == *other;
    let is_one = first == other || !is_copied;
    Ok(came.push_str(order(is_one, first < other, other > first))?)
}
