//! The file of a Unix socket, and the lock that says whose it is.
//!
//! The lock is on a file beside the socket's, since a socket's file can't be opened.

ghost use Rattle.std.specs.Prelude.{◌≡◌, ◌≤◌, length, None, Some, Ok, Err, OnOk};

use crate::lock_file::{LockFault, open_lock};
use mio::net::{UnixListener, UnixStream};
use std::fs;
use std::fs::{File, Files, Permissions, TryLockError};
use std::io::ErrorKind;
use std::net::Net;
use std::os::unix::fs::{FileTypeExt, MetadataExt, PermissionsExt};
use thiserror::Error;

/// Its owner and its group may connect.
const SOCKET_MODE: u32 = 0o660;

/// The bytes of a socket's path at most.
const LONGEST: usize = 107;

/// Why there is no socket at a path.
#[derive(Clone, Copy, Debug, PartialEq, Eq, Drop, Error)]
pub enum SocketFault {
    #[error("a socket's path has 1 to 107 bytes")]
    Path,
    #[error("its lock cannot be opened: {0}")]
    NoLock(ErrorKind),
    #[error("another server has its lock")]
    Locked,
    #[error("something is there that is no socket")]
    NoSocket,
    #[error("somebody listens there")]
    Listening,
    /// What is there neither takes a connection nor refuses it.
    #[error("a socket is there, and whether it is in use cannot be told: {0}")]
    Unclear(ErrorKind),
    #[error("{0}")]
    System(ErrorKind),
    #[error("out of memory")]
    Memory,
}

/// What is at a path where a socket may be made.
#[derive(Clone, Copy, Debug, PartialEq, Eq)]
enum Found {
    Nothing,
    /// A socket on which nobody listens.
    Stale,
}

/// The file of a socket on which this server listens. It is removed when this is let go of, and only then may another
/// server have the path.
pub struct SocketFile<'a, R: Files> {
    rt: &'a R,
    path: &'a str,
    identity: Option<Identity>,
    lock: File,
}

/// What tells a file from one that took its place.
#[derive(Clone, Copy, Debug, PartialEq, Eq)]
struct Identity {
    device: u64,
    node: u64,
}

fn identity_of<R: Files>(rt: &R, path: &str) -> Option<Identity> {
    let metadata = fs::symlink_metadata(rt, path).ok()?;
    Some(Identity {
        device: metadata.dev(),
        node: metadata.ino(),
    })
}

impl<R: Files> Drop for SocketFile<'_, R> {
    fn drop(self) {
        let SocketFile {
            rt,
            path,
            identity,
            lock,
        } = self;
        // What somebody put in its place stays.
        if identity.is_some() && identity_of(rt, path) == identity {
            let _ = fs::remove_file(rt, path);
        }
        drop(lock);
    }
}

fn check_path(path: &str) -> Result<(), SocketFault>
    ensures some { OnOk result (1 ≤ length path.now) }
    ensures fits { OnOk result (length path.now ≤ 107) }
{
    if path.is_empty() || path.len() > LONGEST {
        Err(SocketFault::Path)
    } else {
        Ok(())
    }
}

/// What a socket's file is, where a connection to it ended in this error, or in none.
fn judge(error: Option<ErrorKind>) -> Result<Found, SocketFault>
    ensures stale { result ≡ Ok Found.Stale → error ≡ Some ErrorKind.ConnectionRefused }
    ensures gone { result ≡ Ok Found.Nothing → error ≡ Some ErrorKind.NotFound }
    ensures live { error ≡ None → result ≡ Err SocketFault.Listening }
{
    match error {
        Some(ErrorKind::ConnectionRefused) => Ok(Found::Stale),
        // It was removed after it was looked at: by another server that starts, or by one that ends.
        Some(ErrorKind::NotFound) => Ok(Found::Nothing),
        // Where there is no room for one more to wait, somebody listens too.
        None | Some(ErrorKind::WouldBlock) => Err(SocketFault::Listening),
        Some(kind) => Err(SocketFault::Unclear(kind)),
    }
}

/// What is at this path, where a socket may be made there.
fn find<R: Net + Files>(rt: &R, path: &str) -> Result<Found, SocketFault> {
    let metadata = match fs::symlink_metadata(rt, path) {
        Ok(metadata) => metadata,
        Err(error) => {
            return match error.kind() {
                ErrorKind::NotFound => Ok(Found::Nothing),
                kind => Err(SocketFault::System(kind)),
            };
        }
    };
    if !metadata.file_type().is_socket() {
        return Err(SocketFault::NoSocket);
    }
    match UnixStream::connect(rt, path) {
        Ok(_) => judge(None),
        Err(error) => judge(Some(error.kind())),
    }
}

/// Takes the lock of this path.
fn take_lock<R>(rt: &R, path: &str) -> Result<File, SocketFault>
where
    R: Files<File = File> + AllocGlobal,
{
    let file = match open_lock(rt, path) {
        Ok(file) => file,
        Err(LockFault::NotOpened(kind)) => return Err(SocketFault::NoLock(kind)),
        Err(LockFault::Memory) => return Err(SocketFault::Memory),
    };
    match file.try_lock() {
        Ok(()) => Ok(file),
        Err(TryLockError::WouldBlock) => Err(SocketFault::Locked),
        Err(TryLockError::Error(error)) => Err(SocketFault::NoLock(error.kind())),
    }
}

/// Listens at this path. A socket on which nobody listens is replaced; whatever else is there is refused.
///
/// Until the file has its mode, which is at once, it has the one that the process's umask leaves.
pub fn bind_socket<'a, R>(
    rt: &'a R,
    path: &'a str,
) -> Result<(UnixListener, SocketFile<'a, R>), SocketFault>
where
    R: Net + Files<File = File> + AllocGlobal,
{
    check_path(path)?;
    // It counts under the lock. Before that it is looked at so that beside what is refused no lock is made.
    find(rt, path)?;
    let lock = take_lock(rt, path)?;
    if find(rt, path)? == Found::Stale {
        if let Err(error) = fs::remove_file(rt, path) {
            return Err(SocketFault::System(error.kind()));
        }
    }
    let listener = match UnixListener::bind(rt, path) {
        Ok(listener) => listener,
        Err(error) => return Err(SocketFault::System(error.kind())),
    };
    let file = SocketFile {
        rt,
        path,
        identity: identity_of(rt, path),
        lock,
    };
    match fs::set_permissions(rt, path, Permissions::from_mode(SOCKET_MODE)) {
        Ok(()) => Ok((listener, file)),
        Err(error) => Err(SocketFault::System(error.kind())),
    }
}
