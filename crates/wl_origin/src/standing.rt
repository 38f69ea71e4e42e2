//! The origin of the URL that a text spells.

ghost use Rattle.wl_origin.specs.Standing.{Answers};
ghost use Rattle.wl_origin.specs.inner.Standing.{AnswersOrigin};

use crate::key::OriginKey;
use std::alloc::Global;
use std::error::Error;
use std::fmt;
use url::{Origin, ParseError, Url};

/// Whether an origin has lock managers.
#[derive(Debug, PartialEq, Eq, Drop)]
pub enum Standing {
    /// It has this key, and a manager for each of its buckets.
    Tuple(OriginKey),
    /// It has none, as the origin of a `data:` or a `file:` URL (Storage, "obtain a storage key").
    Opaque,
}

/// Why a text has no origin.
#[derive(Clone, Copy, Debug, PartialEq, Eq)]
pub enum KeyFault {
    /// The text is no absolute URL (URL, "basic URL parser" without a base).
    BadUrl,
    /// A growth was refused, or the URL would be longer than 4,294,967,295 bytes.
    Memory,
}

impl fmt::Display for KeyFault {
    fn fmt<W: fmt::Write>(&self, f: &mut fmt::Formatter<W>) -> fmt::Result {
        match self {
            KeyFault::BadUrl => write!(f, "not a URL"),
            KeyFault::Memory => write!(f, "out of memory"),
        }
    }
}

impl Error for KeyFault {}

/// The origin of the URL that the text spells. A port that the URL leaves out is its scheme's own, the host is
/// the text that the URL standard serializes, and a `blob:` URL has the origin of the URL in its path.
pub fn key_of(alloc: Global, text: &str) -> Result<Standing, KeyFault>
    ensures { Answers result text.now }
{
    match Url::parse(alloc, text) {
        Ok(url) => match url.origin() {
            Ok(origin) => standing_of(alloc, origin),
            Err(_) => Err(KeyFault::Memory),
        },
        Err(ParseError::OutOfMemory | ParseError::Overflow) => Err(KeyFault::Memory),
        Err(_) => Err(KeyFault::BadUrl),
    }
}

fn standing_of(alloc: Global, origin: Origin) -> Result<Standing, KeyFault>
    ensures { AnswersOrigin result origin }
{
    match origin {
        Origin::Opaque => Ok(Standing::Opaque),
        Origin::Tuple(scheme, host, port) => match format!(in alloc; "{host}") {
            Ok(host) => Ok(Standing::Tuple(OriginKey::new(scheme, host, port))),
            Err(_) => Err(KeyFault::Memory),
        },
    }
}
