//! A stream that counts what came.

ghost use Rattle.std.specs.Prelude.{◌≡◌};

use std::io;
use std::io::{ErrorKind, Read, Write};
use std::sync::atomic::{AtomicBool, AtomicU64, Ordering};

/// The bytes after which a turn reads no more, so that others have theirs: a peer may send without an end what makes no
/// message, as empty fragments.
const SHARE: u64 = 16_384;

/// A stream that counts the bytes that came, since they alone are a sign of life, and gives no more than so many.
///
/// It may be told when its stream is ready (`hear_of`), as a poll does that reports each change once. Then it asks the
/// system no more once a read was short: all was taken that was there, and what comes later is reported.
///
/// It may be told that a turn begins (`begin_turn`). Then it reads on until it has given 16 KiB, and one read more at
/// most.
#[derive(Drop)]
pub struct Counted<S> {
    stream: S,
    came: u64,
    // What may still come.
    left: u64,
    // What may still come in this turn. It and the two flags are changed behind a `&`, which leaves what a socket over
    // this stream is known to be.
    share: AtomicU64,
    // Nothing is there until the stream is ready once more.
    is_drained: AtomicBool,
    // A short read says nothing: nobody reports when the stream is ready, or its end may be there, of which there will
    // be no further report.
    reads_on: AtomicBool,
}

impl<S> Counted<S> {
    /// A stream of which at most so many bytes may be read: then each read fails.
    pub fn new(stream: S, limit: u64) -> Counted<S>
        ensures stream { result.stream ≡ stream }
        ensures came { result.came ≡ 0 }
        ensures left { result.left ≡ limit }
    {
        Counted {
            stream,
            came: 0,
            left: limit,
            share: AtomicU64::new(u64::MAX),
            is_drained: AtomicBool::new(false),
            reads_on: AtomicBool::new(true),
        }
    }

    /// The stream may be ready to be read. Unless its end may be there too, a short read from now on takes all that is
    /// there until this is called again.
    pub fn hear_of(&self, may_end: bool) {
        self.reads_on.store(may_end, Ordering::SeqCst);
        self.is_drained.store(false, Ordering::SeqCst);
    }

    /// A turn begins, which may read 16 KiB. Until this is called for the first time nothing limits a turn.
    pub fn begin_turn(&self) {
        self.share.store(SHARE, Ordering::SeqCst);
    }

    /// Whether more may be there than this turn could read.
    pub fn has_more(&self) -> bool {
        self.share.load(Ordering::SeqCst) == 0 && !self.is_drained.load(Ordering::SeqCst)
    }

    /// How many bytes came, at most 2^64 - 1.
    pub fn byte_count(&self) -> u64
        ensures { result ≡ self.now.came }
    {
        self.came
    }

    /// The stream, for what is asked of it beside reading and writing.
    pub fn get_ref(&self) -> &S
        ensures { result.now ≡ self.now.stream }
    {
        &self.stream
    }

    /// The stream. What was counted is gone.
    pub fn into_stream(self) -> S
        ensures { result ≡ self.stream }
    {
        self.stream
    }
}

impl<S: Read> Read for Counted<S> {
    ghost remaining = { λ counted. S.remaining counted.stream };

    fn read(&mut self, buf: &mut [u8]) -> io::Result<usize> {
        if self.left == 0 {
            return Err(io::Error::from(ErrorKind::FileTooLarge));
        }
        let share = self.share.load(Ordering::SeqCst);
        if share == 0 || self.is_drained.load(Ordering::SeqCst) {
            return Err(io::Error::from(ErrorKind::WouldBlock));
        }
        let room = buf.len();
        let got = self.stream.read(buf);
        if let Ok(count) = &got {
            if *count > 0 && *count < room && !self.reads_on.load(Ordering::SeqCst) {
                self.is_drained.store(true, Ordering::SeqCst);
            }
            let count = *count as u64;
            self.came = self.came.saturating_add(count);
            self.left = self.left.saturating_sub(count);
            self.share
                .store(share.saturating_sub(count), Ordering::SeqCst);
        }
        got
    }
}

impl<S: Write> Write for Counted<S> {
    ghost contents = { λ counted. S.contents counted.stream };

    fn write(&mut self, buf: &[u8]) -> io::Result<usize> {
        self.stream.write(buf)
    }

    fn flush(&mut self) -> io::Result<()> {
        self.stream.flush()
    }
}
