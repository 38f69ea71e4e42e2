//! Names of buckets.

use super::order;
use std::alloc::Global;
use wl_origin::{BucketFault, BucketName};
use wl_types::{Memory, Text};

/// A short text of few characters is a name. The longest has 64 bytes. `LF` stands for one.
pub const NAMES: &str = "\
name default -> a name
name inbox -> a name
name a -> a name
name 0 -> a name
name z9 -> a name
name a-b_c -> a name
name a-- -> a name
name 7_ -> a name
name aaaaaaaaaaaaaaaaaaaaaaaaaaaaaaaaaaaaaaaaaaaaaaaaaaaaaaaaaaaaaaaa -> a name
name aaaaaaaaaaaaaaaaaaaaaaaaaaaaaaaaaaaaaaaaaaaaaaaaaaaaaaaaaaaaaaaaa -> none
name  -> none
name Inbox -> none
name inboX -> none
name -a -> none
name _a -> none
name - -> none
name in box -> none
name  a -> none
name in/box -> none
name a.b -> none
name a LF -> none
name a\u{e9} -> none
";

/// A name is copied, and that of those who name none is known. Whether the copy is the name, and what both say of it.
pub const DEFAULT: &str = "\
copy default -> true true true
copy defaults -> true false false
copy inbox -> true false false
";

/// By their bytes.
pub const RISING_NAMES: &str = "\
names 0 0- -> rising
names 0- 00 -> rising
names 00 0_ -> rising
names 0_ 0a -> rising
names 0a 9 -> rising
names 9 a -> rising
names a a-b -> rising
names a-b a_b -> rising
names a_b aa -> rising
names aa b -> rising
";

/// Adds whether the text is a name, by either way to one.
pub fn add_name(alloc: Global, came: &mut String, text: &str) -> Result<(), Memory> {
    let text = if text == "a LF" { "a\n" } else { text };
    let kept = BucketName::from_text(Text::of(alloc, text)?);
    came.push_str(show_name(text, &BucketName::of(alloc, text), &kept))?;
    Ok(())
}

fn show_name(
    text: &str,
    found: &Result<BucketName, BucketFault>,
    kept: &Option<BucketName>,
) -> &'static str {
    match (found, kept) {
        (Ok(name), Some(kept)) if name.as_str() == text && kept == name => "a name",
        (Err(BucketFault::BadBucket), None) => "none",
        (Err(BucketFault::Memory), _) => "out of memory",
        _ => "at odds",
    }
}

/// Adds whether the name and its copy are one, and whether each is that of those who name none.
pub fn add_copy(alloc: Global, came: &mut String, text: &str) -> Result<(), Memory> {
    match BucketName::of(alloc, text) {
        Ok(name) => add_copy_of(alloc, came, &name),
        Err(fault) => Ok(write!(came, "{fault}")?),
    }
}

fn add_copy_of(alloc: Global, came: &mut String, name: &BucketName) -> Result<(), Memory> {
    add_copied(came, name, &name.copy(alloc)?)
}

fn add_copied(came: &mut String, name: &BucketName, copy: &BucketName) -> Result<(), Memory> {
    let (is_default, is_copy_default) = (name.is_default(), copy.is_default());
    write!(came, "{} {is_default} {is_copy_default}", copy == name)?;
    Ok(())
}

/// Adds how two names stand to each other.
pub fn add_names(alloc: Global, came: &mut String, texts: &str) -> Result<(), Memory> {
    let (first, other) = texts.split_once(' ').unwrap_or((texts, ""));
    match BucketName::of(alloc, first) {
        Ok(first) => add_beside(alloc, came, &first, other),
        Err(fault) => Ok(write!(came, "{fault}")?),
    }
}

fn add_beside(
    alloc: Global,
    came: &mut String,
    first: &BucketName,
    other: &str,
) -> Result<(), Memory> {
    match BucketName::of(alloc, other) {
        Ok(other) => add_order(came, first, &other),
        Err(fault) => Ok(write!(came, "{fault}")?),
    }
}

fn add_order(came: &mut String, first: &BucketName, other: &BucketName) -> Result<(), Memory> {
    Ok(came.push_str(order(first == other, first < other, other > first))?)
}
