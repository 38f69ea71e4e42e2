//! The file that keeps a server's epoch from one start to the next.

ghost use Rattle.std.specs.Prelude.{◌≡◌, ◌≤◌, IfOk, MatchOption, string_bytes};
ghost use Rattle.wl_daemon.specs.Epochs.{IsEpochAfter, Keeps, KeepsNone, Writes, WritesNone, without_lf};

use crate::lock_file::{LockFault, open_lock};
use std::alloc::{AllocError, Global};
use std::fs::{File, Files, OpenFile};
use std::io::{ErrorKind, Write};
use std::{fs, io};
use thiserror::Error;

/// The greatest epoch.
const MOST_EPOCH: u64 = i64::MAX as u64;

/// The bytes of a file that keeps an epoch at most: longer ones aren't read, whatever they are. Zeros may stand before
/// a number.
const LONGEST: u64 = 4_096;

/// Why a server begins with no epoch.
#[derive(Clone, Copy, Debug, PartialEq, Eq, Drop, Error)]
pub enum EpochFault {
    #[error("cannot be read")]
    Unreadable,
    /// As a pipe, which would be waited for, or a symbolic link, in whose place a file would be put.
    #[error("not a regular file")]
    NoFile,
    #[error("not a number from 0 to 9223372036854775807")]
    Wrong,
    /// There is none behind it.
    #[error("at the greatest epoch")]
    Last,
    #[error("cannot be written")]
    Unwritable,
    #[error("out of memory")]
    Memory,
}

/// A text without the LF that may stand at its end.
fn without_lf(text: &str) -> &str
    ensures { result.now ≡ without_lf text.now }
{
    match text.strip_suffix("\n") {
        Some(before) => before,
        None => text,
    }
}

/// The epoch that this text of a file keeps; 0 stands for none yet.
fn kept_in(text: &str) -> Option<u64>
    ensures { MatchOption result (KeepsNone text.now) (Keeps text.now) }
{
    epoch_of(without_lf(text))
}

/// The epoch that these digits write.
fn epoch_of(digits: &str) -> Option<u64>
    ensures { MatchOption result (WritesNone digits.now) (Writes digits.now) }
{
    if digits.starts_with("+") {
        return None;
    }
    match digits.parse::<u64>() {
        Ok(epoch) if epoch <= MOST_EPOCH => Some(epoch),
        _ => None,
    }
}

/// The epoch behind the one that this text of a file keeps.
fn epoch_after(text: &str) -> Result<u64, EpochFault>
    ensures { IsEpochAfter text.now result }
{
    match kept_in(text) {
        None => Err(EpochFault::Wrong),
        Some(epoch) if epoch < MOST_EPOCH => Ok(epoch + 1),
        Some(_) => Err(EpochFault::Last),
    }
}

/// The text of a file that keeps an epoch.
fn text_of(alloc: Global, epoch: u64) -> Result<String, AllocError>
    ensures { epoch ≤ 9223372036854775807 → IfOk result (λ text. Keeps (string_bytes text) epoch) }
{
    let mut text = epoch.to_string(alloc)?;
    text.push('\n')?;
    Ok(text)
}

/// The folder that a path's file is in.
fn folder_of(path: &str) -> &str {
    match path.rsplit_once('/') {
        Some(("", _)) => "/",
        Some((folder, _)) => folder,
        None => ".",
    }
}

/// The epoch of a server that starts now: one behind that of this file, or the first where there is no file. The file
/// keeps it from now on, also where the machine stops. Of an error the file knows nothing, but for one of the disk that
/// comes once the file has its new name: then an epoch is left out. Of several that start at once one waits for the
/// other, by a lock on a file beside it, so that no two have one epoch.
pub fn next_epoch<R>(rt: &R, path: &str) -> Result<u64, EpochFault>
where
    R: Files<File = File> + AllocGlobal,
{
    // It counts under the lock. Before that it is looked at so that beside what is refused no lock is made.
    read_next(rt, path)?;
    let lock = take_lock(rt, path)?;
    let epoch = read_next(rt, path)?;
    keep(rt, path, epoch)?;
    drop(lock);
    Ok(epoch)
}

/// The epoch behind that of this file, or the first where there is no file.
fn read_next<R: Files + AllocGlobal>(rt: &R, path: &str) -> Result<u64, EpochFault> {
    match fs::symlink_metadata(rt, path) {
        Ok(metadata) if !metadata.is_file() => return Err(EpochFault::NoFile),
        Ok(metadata) if metadata.len() > LONGEST => return Err(EpochFault::Wrong),
        _ => {}
    }
    match fs::read_to_string(rt, path) {
        Ok(text) => epoch_after(text.as_str()),
        Err(error) if error.kind() == ErrorKind::NotFound => Ok(1),
        Err(error) => Err(fault_of(&error)),
    }
}

/// Takes the lock of this path, once nobody else has it.
fn take_lock<R>(rt: &R, path: &str) -> Result<File, EpochFault>
where
    R: Files<File = File> + AllocGlobal,
{
    let file = match open_lock(rt, path) {
        Ok(file) => file,
        Err(LockFault::NotOpened(_)) => return Err(EpochFault::Unwritable),
        Err(LockFault::Memory) => return Err(EpochFault::Memory),
    };
    match file.lock() {
        Ok(()) => Ok(file),
        Err(_) => Err(EpochFault::Unwritable),
    }
}

fn fault_of(error: &io::Error) -> EpochFault {
    match error.kind() {
        ErrorKind::InvalidData => EpochFault::Wrong,
        ErrorKind::OutOfMemory => EpochFault::Memory,
        _ => EpochFault::Unreadable,
    }
}

/// Has a file keep an epoch. What keeps it is written beside the file first and then takes its name, so that whenever
/// the machine stops there is the one or the other, whole.
fn keep<R: Files + AllocGlobal>(rt: &R, path: &str, epoch: u64) -> Result<(), EpochFault> {
    let (Ok(text), Ok(beside)) = (
        text_of(rt.alloc(), epoch),
        format!(in rt.alloc(); "{path}.new"),
    ) else {
        return Err(EpochFault::Memory);
    };
    match replace(rt, path, beside.as_str(), text.as_bytes()) {
        Ok(()) => Ok(()),
        Err(_) => {
            // Where it is there still, it is of no use.
            let _ = fs::remove_file(rt, beside.as_str());
            Err(EpochFault::Unwritable)
        }
    }
}

/// Puts these bytes on the disk at the path `beside`, and that file at `path`.
fn replace<R: Files>(rt: &R, path: &str, beside: &str, bytes: &[u8]) -> io::Result<()> {
    let mut file = fs::create(rt, beside)?;
    file.write_all(bytes)?;
    file.sync_all()?;
    fs::rename(rt, beside, path)?;
    // The new name is of the folder, which is a file of its own.
    fs::open(rt, folder_of(path))?.sync_all()
}
