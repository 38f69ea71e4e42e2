//! The file whose lock says who may have or change another one. It has that one's name, with `.lock` behind it.
//!
//! It stays when its process ends: if it were removed, one process could lock the old file while another makes and locks
//! a new one.

use std::fs::{File, Files, OpenOptions};
use std::io::ErrorKind;
use std::os::unix::fs::OpenOptionsExt;

/// Its owner alone may open it.
const MODE: u32 = 0o600;

/// Why there is no such file.
#[derive(Clone, Copy, Debug, PartialEq, Eq)]
pub(crate) enum LockFault {
    NotOpened(ErrorKind),
    Memory,
}

/// Opens the lock's file beside the one at this path, and makes it if need be. It isn't locked yet; whoever locks it
/// has the lock until the file is let go of.
pub(crate) fn open_lock<R>(rt: &R, path: &str) -> Result<File, LockFault>
where
    R: Files<File = File> + AllocGlobal,
{
    let Ok(name) = format!(in rt.alloc(); "{path}.lock") else {
        return Err(LockFault::Memory);
    };
    let mut options = OpenOptions::new();
    options.read(true).write(true).create(true).mode(MODE);
    match options.open(rt, name.as_str()) {
        Ok(file) => Ok(file),
        Err(error) => Err(LockFault::NotOpened(error.kind())),
    }
}
