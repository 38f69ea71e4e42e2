//! Writes replies.

ghost use Rattle.std.specs.Prelude.{◌≡◌, ◌++◌, ℕ, List, OnOk, OnErr};
ghost use Rattle.std.specs.Io.KnownBytes.{Appends};

use std::io;
use std::io::{ErrorKind, Write};
use std::sync::Wait;

/// Writes all of the bytes. A write that was interrupted is made again.
fn write_all<R: Wait, O: Write>(rt: &R, writer: &mut O, bytes: &[u8]) -> io::Result<()>
    ensures all { OnOk result (Appends (O.contents writer.old) (O.contents writer.new) bytes.now) }
    ensures some { OnErr result ((part more : List ℕ) × (bytes.now ≡ part ++ more)
        × Appends (O.contents writer.old) (O.contents writer.new) part) }
{
    let mut at = 0;
    for _ in rt.forever() {
        if at >= bytes.len() {
            return Ok(());
        }
        match writer.write(&bytes[at..]) {
            Ok(0) => return Err(io::Error::from(ErrorKind::WriteZero)),
            Ok(n) => at += n,
            Err(error) => {
                if error.kind() != ErrorKind::Interrupted {
                    return Err(error);
                }
            }
        }
    }
    unreachable!()
}

/// Writes all of the bytes, and flushes them.
pub fn put<R: Wait, O: Write>(rt: &R, writer: &mut O, bytes: &[u8]) -> io::Result<()>
    ensures all { OnOk result (Appends (O.contents writer.old) (O.contents writer.new) bytes.now) }
    ensures some { OnErr result ((part more : List ℕ) × (bytes.now ≡ part ++ more)
        × Appends (O.contents writer.old) (O.contents writer.new) part) }
{
    match write_all(rt, writer, bytes) {
        Ok(()) => writer.flush(),
        Err(error) => Err(error),
    }
}
