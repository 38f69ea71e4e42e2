//! The file that lists tokens, and whether it has changed.

ghost use Rattle.std.specs.Prelude.{◌≡◌, ◌==◌, bit_and, not};

use std::fs::{Files, Metadata};
use std::io::ErrorKind;
use std::os::unix::fs::{MetadataExt, PermissionsExt};
use std::{fs, io};
use thiserror::Error;
use wl_admission::{TokenFileFault, Tokens, read_tokens};

/// The permission bits by which others than a file's owner may read it.
const OTHERS: u32 = 0o044;

/// Why a file gives no tokens.
#[derive(Clone, Copy, Debug, PartialEq, Eq, Drop, Error)]
pub enum FileFault {
    #[error("cannot be read")]
    Unreadable,
    /// As a pipe, which would be waited for.
    #[error("not a regular file")]
    NoFile,
    #[error("may be read by others than its owner")]
    Exposed,
    #[error("not UTF-8")]
    NotText,
    #[error("{0}")]
    Wrong(TokenFileFault),
    #[error("out of memory")]
    Memory,
}

impl FileFault {
    /// Whether the same file may be read at a later try, as where files or memory were wanting.
    pub(crate) fn may_pass(self) -> bool {
        matches!(self, FileFault::Unreadable | FileFault::Memory)
    }
}

/// What tells one state of a file from the next.
#[derive(Clone, Copy, Debug, PartialEq, Eq)]
struct Mark {
    node: u64,
    size: u64,
    // When its bytes or its mode last changed, as the system knows it (ctime): a copy that keeps the time of the original,
    // or a rewrite that sets it back, changes this all the same.
    seconds: i64,
    nanoseconds: i64,
    mode: u32,
}

/// A file that lists tokens.
#[derive(Drop)]
pub struct TokenFile<'a> {
    path: &'a str,
    // The state in which it was looked at last; none where there was none.
    seen: Option<Mark>,
}

fn mark_of(metadata: &Metadata) -> Mark {
    Mark {
        node: metadata.ino(),
        size: metadata.len(),
        seconds: metadata.ctime(),
        nanoseconds: metadata.ctime_nsec(),
        mode: metadata.permissions().mode(),
    }
}

/// Whether others than a file's owner may read it.
fn is_exposed(mode: u32) -> bool
    ensures { result ≡ not (bit_and mode 0o044 == 0) }
{
    mode & OTHERS != 0
}

impl<'a> TokenFile<'a> {
    /// The file at this path, which wasn't looked at yet.
    pub fn new(path: &'a str) -> TokenFile<'a> {
        TokenFile { path, seen: None }
    }

    /// What it has isn't in place: it is read again, though it stays as it is.
    pub(crate) fn forget(&mut self) {
        self.seen = None;
    }

    /// Its tokens, if it has changed since it was last looked at.
    pub fn read_changed<R: Files + AllocGlobal>(
        &mut self,
        rt: &R,
    ) -> Result<Option<Tokens>, FileFault> {
        let found = fs::metadata(rt, self.path);
        let seen = match &found {
            Ok(metadata) => Some(mark_of(metadata)),
            Err(_) => None,
        };
        if seen.is_some() && seen == self.seen {
            return Ok(None);
        }
        let is_new = seen != self.seen;
        self.seen = seen;
        match found {
            Ok(metadata) if !metadata.is_file() => Err(FileFault::NoFile),
            Ok(metadata) if is_exposed(metadata.permissions().mode()) => Err(FileFault::Exposed),
            Ok(_) => read(rt, self.path).map(Some),
            Err(_) if is_new => Err(FileFault::Unreadable),
            // It was told before.
            Err(_) => Ok(None),
        }
    }

    /// Its tokens.
    pub fn read<R: Files + AllocGlobal>(&mut self, rt: &R) -> Result<Tokens, FileFault> {
        match self.read_changed(rt)? {
            Some(tokens) => Ok(tokens),
            None => Err(FileFault::Unreadable),
        }
    }
}

fn read<R: Files + AllocGlobal>(rt: &R, path: &str) -> Result<Tokens, FileFault> {
    let text = match fs::read_to_string(rt, path) {
        Ok(text) => text,
        Err(error) => return Err(fault_of(&error)),
    };
    match read_tokens(rt.alloc(), text.as_str()) {
        Ok(tokens) => Ok(tokens),
        Err(TokenFileFault::Memory) => Err(FileFault::Memory),
        Err(fault) => Err(FileFault::Wrong(fault)),
    }
}

fn fault_of(error: &io::Error) -> FileFault {
    match error.kind() {
        ErrorKind::InvalidData => FileFault::NotText,
        ErrorKind::OutOfMemory => FileFault::Memory,
        _ => FileFault::Unreadable,
    }
}
