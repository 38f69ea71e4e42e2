//! Readers and writers of std, as inputs and outputs of a run.

ghost use Rattle.std.specs.Prelude.{◌≡◌};

use crate::{Failed, Input, Output};
use std::io;

/// A reader of std, with its reads and failures counted. A read that was interrupted has failed.
#[derive(Drop)]
pub struct Reader<R> {
    inner: R,
    reads: u64,
    failures: u64,
}

impl<R> Reader<R> {
    pub fn new(inner: R) -> Self
        ensures inner { result.inner ≡ inner }
        ensures reads { result.reads ≡ 0 }
        ensures failures { result.failures ≡ 0 }
    {
        Reader {
            inner,
            reads: 0,
            failures: 0,
        }
    }

    /// Hands the reader back.
    pub fn into_inner(self) -> R
        ensures { result ≡ self.inner }
    {
        self.inner
    }
}

impl<R: io::Read> Input for Reader<R> {
    ghost rest = { λ s. R.remaining s.inner };

    ghost reads = { λ s. s.reads };

    ghost failures = { λ s. s.failures };

    fn read(&mut self, buf: &mut [u8]) -> Result<usize, Failed> {
        self.reads = self.reads.wrapping_add(1);
        match self.inner.read(buf) {
            Ok(n) => Ok(n),
            Err(_) => {
                self.failures = self.failures.wrapping_add(1);
                Err(Failed)
            }
        }
    }
}

/// A writer of std, with its failures counted. A write that was interrupted has failed. It is never flushed here:
/// give a writer that has no buffer, or every reply waits in it.
#[derive(Drop)]
pub struct Writer<W> {
    inner: W,
    failures: u64,
}

impl<W> Writer<W> {
    pub fn new(inner: W) -> Self
        ensures inner { result.inner ≡ inner }
        ensures failures { result.failures ≡ 0 }
    {
        Writer { inner, failures: 0 }
    }

    /// Hands the writer back, as for a last flush.
    pub fn into_inner(self) -> W
        ensures { result ≡ self.inner }
    {
        self.inner
    }
}

impl<W: io::Write> Output for Writer<W> {
    ghost held = { λ s. W.contents s.inner };

    ghost failures = { λ s. s.failures };

    fn write(&mut self, piece: &[u8]) -> Result<usize, Failed> {
        match self.inner.write(piece) {
            Ok(n) => {
                if n == 0 && !piece.is_empty() {
                    self.failures = self.failures.wrapping_add(1);
                }
                Ok(n)
            }
            Err(_) => {
                self.failures = self.failures.wrapping_add(1);
                Err(Failed)
            }
        }
    }
}
