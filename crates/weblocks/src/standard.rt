//! The numbers of standard input, output and error.

use std::fs;
use std::fs::{File, Files};
use std::os::fd::AsRawFd;

/// What has nothing to read, and can't be written once it is opened to be read.
const NOTHING: &str = "/dev/null";

/// The greatest of them.
const LAST: i32 = 2;

/// Has a file of nothing take the number of each of these that is closed, until it is let go of. Else what is opened
/// next would have that number, a listening socket or the lock of one, and be read or written as that.
pub(crate) fn hold_numbers<R: Files<File = File>>(rt: &R) -> [Option<File>; 3] {
    [hold_one(rt), hold_one(rt), hold_one(rt)]
}

/// A file of nothing with one of the numbers, if one is free: a file has the least that is.
fn hold_one<R: Files<File = File>>(rt: &R) -> Option<File> {
    let file = fs::open(rt, NOTHING).ok()?;
    (file.as_raw_fd() <= LAST).then_some(file)
}
