//! A writer that takes some writes.

use std::io;
use std::io::{ErrorKind, Write};

/// Takes so many writes, and then finds that the peer has left.
#[derive(Drop)]
pub struct Taker {
    pub taken: Vec<u8>,
    pub writes: usize,
}

impl Write for Taker {
    fn write(&mut self, buf: &[u8]) -> io::Result<usize> {
        if self.writes == 0 {
            return Err(io::Error::from(ErrorKind::BrokenPipe));
        }
        self.writes -= 1;
        self.taken.extend_from_slice(buf)?;
        Ok(buf.len())
    }

    fn flush(&mut self) -> io::Result<()> {
        Ok(())
    }
}
