//! A stream that may be corked, and tells whether its peer reads on.

ghost use Rattle.std.specs.Prelude.{◌≡◌};

use std::io;
use std::io::{ErrorKind, Read, Write};
use std::sync::atomic::{AtomicBool, Ordering};

/// A stream that takes nothing while it is corked, as one whose peer doesn't read. So what is to leave stays where it
/// is until it is sent once more behind that.
#[derive(Drop)]
pub struct Corkable<S> {
    stream: S,
    // These are changed behind a `&`, which leaves what a socket over this stream is known to be.
    is_corked: AtomicBool,
    // It took nothing more when it was written to last.
    is_full: AtomicBool,
    // It took something since, and that wasn't asked.
    has_drained: AtomicBool,
}

impl<S> Corkable<S> {
    /// A stream that isn't corked.
    pub fn new(stream: S) -> Corkable<S>
        ensures { result.stream ≡ stream }
    {
        Corkable {
            stream,
            is_corked: AtomicBool::new(false),
            is_full: AtomicBool::new(false),
            has_drained: AtomicBool::new(false),
        }
    }

    /// From now on each write would block.
    pub fn cork(&self) {
        self.is_corked.store(true, Ordering::SeqCst);
    }

    /// From now on writes go to the stream again.
    pub fn uncork(&self) {
        self.is_corked.store(false, Ordering::SeqCst);
    }

    /// Whether the stream took something, since this was last asked, that it had no room for before. There is room again
    /// only where the peer's system has taken what was sent, so that is a sign of life.
    pub fn take_drained(&self) -> bool {
        self.has_drained.load(Ordering::SeqCst) && self.has_drained.swap(false, Ordering::SeqCst)
    }

    /// Takes note of what came of a write.
    fn hear_of(&self, written: &io::Result<usize>) {
        match written {
            Ok(_) => {
                if self.is_full.load(Ordering::SeqCst) {
                    self.is_full.store(false, Ordering::SeqCst);
                    self.has_drained.store(true, Ordering::SeqCst);
                }
            }
            Err(error) => {
                if error.kind() == ErrorKind::WouldBlock {
                    self.is_full.store(true, Ordering::SeqCst);
                }
            }
        }
    }

    /// The stream, for what is asked of it beside reading and writing.
    pub fn get_ref(&self) -> &S
        ensures { result.now ≡ self.now.stream }
    {
        &self.stream
    }

    /// The stream, corked or not.
    pub fn into_stream(self) -> S
        ensures { result ≡ self.stream }
    {
        self.stream
    }
}

impl<S: Read> Read for Corkable<S> {
    ghost remaining = { λ corkable. S.remaining corkable.stream };

    fn read(&mut self, buf: &mut [u8]) -> io::Result<usize> {
        self.stream.read(buf)
    }
}

impl<S: Write> Write for Corkable<S> {
    ghost contents = { λ corkable. S.contents corkable.stream };

    fn write(&mut self, buf: &[u8]) -> io::Result<usize> {
        if self.is_corked.load(Ordering::SeqCst) {
            return Err(io::Error::from(ErrorKind::WouldBlock));
        }
        let written = self.stream.write(buf);
        self.hear_of(&written);
        written
    }

    fn flush(&mut self) -> io::Result<()> {
        self.stream.flush()
    }
}
