//! The manager that a URL and the name of a bucket belong to.

ghost use Rattle.std.specs.Prelude.{Ok};
ghost use Rattle.wl_origin.specs.Opening.{AnswersManager, in_bucket, manager_of};
ghost use Rattle.wl_origin.specs.Standing.{tuple_of};

use crate::bucket::{BucketFault, BucketName, is_bucket};
use crate::manager_key::ManagerKey;
use crate::standing::{KeyFault, Standing, key_of};
use std::alloc::Global;
use std::error::Error;
use std::fmt;
use wl_types::Text;

/// Why a URL and a bucket name no manager.
#[derive(Clone, Copy, Debug, PartialEq, Eq)]
pub enum ManagerFault {
    /// The URL is none.
    BadUrl,
    /// The URL is one, and the bucket is no name of a bucket, whatever the memory from then on.
    BadBucket,
    /// A growth was refused, or the URL would be longer than 4,294,967,295 bytes.
    Memory,
}

impl fmt::Display for ManagerFault {
    fn fmt<W: fmt::Write>(&self, f: &mut fmt::Formatter<W>) -> fmt::Result {
        match self {
            ManagerFault::BadUrl => write!(f, "not a URL"),
            ManagerFault::BadBucket => write!(f, "not the name of a bucket"),
            ManagerFault::Memory => write!(f, "out of memory"),
        }
    }
}

impl Error for ManagerFault {}

/// The key of the manager of the URL's origin and the bucket. None where the origin is opaque: then there is no
/// manager, but the bucket has been looked at.
pub fn manager_of(
    alloc: Global,
    url: &str,
    bucket: &str,
) -> Result<Option<ManagerKey>, ManagerFault>
    ensures { AnswersManager (manager_of url.now bucket.now) result }
{
    match key_of(alloc, url) {
        Err(KeyFault::BadUrl) => Err(ManagerFault::BadUrl),
        Err(KeyFault::Memory) => Err(ManagerFault::Memory),
        Ok(standing) => in_bucket(alloc, standing, bucket),
    }
}

fn in_bucket(
    alloc: Global,
    standing: Standing,
    bucket: &str,
) -> Result<Option<ManagerKey>, ManagerFault>
    ensures { AnswersManager (in_bucket (Ok (tuple_of standing)) bucket.now) result }
{
    match standing {
        Standing::Tuple(origin) => match BucketName::of(alloc, bucket) {
            Ok(bucket) => Ok(Some(ManagerKey { origin, bucket })),
            Err(BucketFault::BadBucket) => Err(ManagerFault::BadBucket),
            Err(BucketFault::Memory) => Err(ManagerFault::Memory),
        },
        Standing::Opaque => {
            if is_bucket(bucket) {
                Ok(None)
            } else {
                Err(ManagerFault::BadBucket)
            }
        }
    }
}

/// As `manager_of`, but the key keeps the bucket's text, so that no memory is needed for it.
pub fn manager_of_text(
    alloc: Global,
    url: &str,
    bucket: Text,
) -> Result<Option<ManagerKey>, ManagerFault>
    ensures { AnswersManager (manager_of url.now bucket) result }
{
    let standing = match key_of(alloc, url) {
        Ok(standing) => standing,
        Err(KeyFault::BadUrl) => return Err(ManagerFault::BadUrl),
        Err(KeyFault::Memory) => return Err(ManagerFault::Memory),
    };
    in_bucket_text(standing, bucket)
}

fn in_bucket_text(standing: Standing, bucket: Text) -> Result<Option<ManagerKey>, ManagerFault>
    ensures { AnswersManager (in_bucket (Ok (tuple_of standing)) bucket) result }
{
    match BucketName::from_text(bucket) {
        None => Err(ManagerFault::BadBucket),
        Some(bucket) => match standing {
            Standing::Tuple(origin) => Ok(Some(ManagerKey { origin, bucket })),
            Standing::Opaque => Ok(None),
        },
    }
}
