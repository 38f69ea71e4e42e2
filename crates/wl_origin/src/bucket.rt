//! Names of storage buckets.

ghost use Rattle.std.specs.Prelude.{◌≡◌, true, IfOk, IfErr, OnOk};
ghost use Rattle.std.specs.List.{list_all};
ghost use Rattle.wl_origin.specs.Bucket.{begins_with_mark, bucket_fault, bucket_in, is_bucket, is_bucket_byte};
ghost use Rattle.wl_origin.specs.Bucket.{is_default, is_mark};

use std::alloc::Global;
use std::cmp::Ordering;
use std::error::Error;
use std::fmt;
use std::hash::{Hash, Hasher};
use std::marker::Model;
use wl_types::{Memory, Text};

/// The name of a storage bucket, by which an origin divides its storage and its locks: 1 to 64 bytes, each of `a` to
/// `z`, `0` to `9`, `-`, `_`, the first neither `-` nor `_`. Names are ordered by their bytes.
#[derive(Debug, Drop)]
pub struct BucketName {
    inner: Text,
}

impl Model for BucketName {
    ghost use Rattle.std.specs.Prelude.{List, ℕ, ◌≡◌, true};
    ghost use Rattle.wl_origin.specs.Bucket.{is_bucket};

    ghost Value = { List ℕ };

    ghost view = { λ name. name.inner };

    ghost invariant = { λ name. is_bucket name.inner ≡ true };
}

/// Why a text gave no name of a bucket.
#[derive(Clone, Copy, Debug, PartialEq, Eq)]
pub enum BucketFault {
    /// The text is no name, whatever the memory.
    BadBucket,
    /// A growth was refused.
    Memory,
}

impl fmt::Display for BucketFault {
    fn fmt<W: fmt::Write>(&self, f: &mut fmt::Formatter<W>) -> fmt::Result {
        match self {
            BucketFault::BadBucket => write!(f, "not the name of a bucket"),
            BucketFault::Memory => write!(f, "out of memory"),
        }
    }
}

impl Error for BucketFault {}

impl BucketName {
    /// The name that is this text.
    pub fn of(alloc: Global, text: &str) -> Result<BucketName, BucketFault>
        ensures made { IfOk result (λ made. made ≡ text.now) }
        ensures allowed { OnOk result (is_bucket text.now ≡ true) }
        ensures refused { IfErr result (λ fault. fault ≡ bucket_fault text.now) }
    {
        if !is_bucket(text) {
            return Err(BucketFault::BadBucket);
        }
        match Text::of(alloc, text) {
            Ok(inner) => Ok(BucketName { inner }),
            Err(_) => Err(BucketFault::Memory),
        }
    }

    /// The name that is this text, if it is one. It keeps the text, and so needs no memory.
    pub fn from_text(text: Text) -> Option<BucketName>
        ensures { result ≡ bucket_in text }
    {
        if is_bucket(text.as_str()) {
            Some(BucketName { inner: text })
        } else {
            None
        }
    }

    pub fn as_str(&self) -> &str
        ensures { result.now ≡ self.now }
    {
        self.inner.as_str()
    }

    /// Whether this is `default`, the bucket of those who name none.
    pub fn is_default(&self) -> bool
        ensures { result ≡ is_default self.now }
    {
        self.inner.as_str() == "default"
    }

    pub fn copy(&self, alloc: Global) -> Result<BucketName, Memory>
        ensures { IfOk result (λ made. made ≡ self.now) }
    {
        Ok(BucketName {
            inner: Text::of(alloc, self.inner.as_str())?,
        })
    }
}

impl PartialEq for BucketName {
    ghost use Rattle.std.proofs.Common.{rules};
    ghost use Rattle.std.specs.Cmp.Rules.{comparing};
    ghost use Rattle.std.specs.Cmp as order;
    ghost use Rattle.std.specs.Ordering.{is_eq};
    ghost use Rattle.wl_origin.specs.Bucket.{bucket_cmp, bucket_cmp_total};

    ghost eq = { λ a b. is_eq (bucket_cmp a b) };

    ghost laws = { order.partial_equiv_from_equiv (order.eq_by_cmp_equiv bucket_cmp_total) };

    fn eq(&self, other: &BucketName) -> bool {
        self.cmp(other).is_eq()
    }
}

impl Eq for BucketName {
    ghost use Rattle.std.specs.Cmp as order;
    ghost use Rattle.wl_origin.specs.Bucket.{bucket_cmp_total};

    ghost laws = { order.eq_by_cmp_equiv bucket_cmp_total };
}

impl PartialOrd for BucketName {
    ghost use Rattle.std.specs.Prelude.{Some};
    ghost use Rattle.std.specs.Cmp as order;
    ghost use Rattle.wl_origin.specs.Bucket.{bucket_cmp, bucket_cmp_total};

    ghost partial_cmp = { λ a b. Some (bucket_cmp a b) };

    ghost laws = { order.partial_order_from_total bucket_cmp_total };

    fn partial_cmp(&self, other: &BucketName) -> Option<Ordering> {
        Some(self.cmp(other))
    }
}

impl Ord for BucketName {
    ghost use Rattle.std.proofs.Common.{rules};
    ghost use Rattle.std.specs.Cmp.Rules.{comparing};
    ghost use Rattle.wl_origin.specs.Bucket.{bucket_cmp, bucket_cmp_total};

    ghost cmp = { bucket_cmp };

    ghost total = { bucket_cmp_total };

    ghost matches_partial_cmp = { Prim.search (comparing, rules) };

    ghost matches_eq = { Prim.search (comparing, rules) };

    fn cmp(&self, other: &BucketName) -> Ordering {
        self.inner.as_str().cmp(other.inner.as_str())
    }
}

impl Hash for BucketName {
    ghost use Rattle.wl_origin.specs.Bucket.{bucket_writes, bucket_writes_alike};

    ghost hash_input = { bucket_writes };

    ghost respects_eq = { bucket_writes_alike };

    fn hash<H: Hasher>(&self, state: &mut H) {
        self.inner.as_str().hash(state);
    }
}

/// Whether the text is the name of a bucket.
pub(crate) fn is_bucket(text: &str) -> bool
    ensures { result ≡ is_bucket text.now }
{
    !text.is_empty() && text.len() <= 64 && !begins_with_mark(text) && has_bucket_bytes(text)
}

fn begins_with_mark(text: &str) -> bool
    ensures { result ≡ begins_with_mark text.now }
{
    match text.as_bytes().first() {
        Some(first) => is_mark(*first),
        None => false,
    }
}

fn has_bucket_bytes(text: &str) -> bool
    ensures { result ≡ list_all is_bucket_byte text.now }
{
    text.bytes().all(is_bucket_byte)
}

fn is_bucket_byte(byte: u8) -> bool
    ensures { result ≡ is_bucket_byte byte }
{
    byte.is_ascii_lowercase() || byte.is_ascii_digit() || is_mark(byte)
}

fn is_mark(byte: u8) -> bool
    ensures { result ≡ is_mark byte }
{
    byte == b'-' || byte == b'_'
}
