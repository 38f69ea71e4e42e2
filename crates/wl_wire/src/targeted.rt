//! A stream of which the target of its first request is kept.

use std::alloc::Global;
use std::io::{Read, Write};
use std::sync::{Arc, OnceLock};
use std::{io, str};

/// A stream of which the target of its first request is kept, as it was sent. The request that a callback of the kit is
/// given doesn't tell it: its `Uri` leaves a fragment out, and may spell an absolute form anew.
#[derive(Drop)]
pub struct Targeted<S> {
    alloc: Global,
    stream: S,
    // The first line that isn't empty, as far as it came.
    line: Vec<u8>,
    is_over: bool,
    target: Arc<OnceLock<String>, Global>,
}

impl<S> Targeted<S> {
    /// The target stands in `target` once its line has come; never where there was no memory for it.
    pub fn new(alloc: Global, stream: S, target: Arc<OnceLock<String>, Global>) -> Targeted<S> {
        Targeted {
            alloc,
            stream,
            line: Vec::new(alloc),
            is_over: false,
            target,
        }
    }

    /// The stream, whether the target has come or not.
    pub fn into_stream(self) -> S {
        self.stream
    }

    fn hear(&mut self, came: &[u8]) {
        for byte in came {
            if self.is_over {
                return;
            }
            if *byte == b'\n' {
                self.end_line();
            } else if self.line.push(*byte).is_err() {
                self.is_over = true;
            }
        }
    }

    /// Keeps the target of the line that has come. Empty lines may stand before it (RFC 9112, section 2.2).
    fn end_line(&mut self) {
        if matches!(self.line.as_slice(), [] | [b'\r']) {
            self.line.clear();
            return;
        }
        self.is_over = true;
        let Some(target) = target_in(self.line.as_slice()) else {
            return;
        };
        if let Ok(target) = String::from_str(self.alloc, target) {
            let _ = self.target.try_set(target);
        }
    }
}

/// The target of a request's line: what stands between its first two spaces. The kit's parser of heads takes the same,
/// byte by byte: of the first line that isn't empty a method, a space, the target, a space and a version, where neither
/// method nor target has a space, and the target is UTF-8; any other line it refuses.
fn target_in(line: &[u8]) -> Option<&str> {
    let line = str::from_utf8(line).ok()?;
    let (_, behind) = line.split_once(' ')?;
    let (target, _) = behind.split_once(' ')?;
    Some(target)
}

impl<S: Read> Read for Targeted<S> {
    fn read(&mut self, buf: &mut [u8]) -> io::Result<usize> {
        let got = self.stream.read(buf);
        if let Ok(count) = &got {
            self.hear(&buf[..*count]);
        }
        got
    }
}

impl<S: Write> Write for Targeted<S> {
    fn write(&mut self, buf: &[u8]) -> io::Result<usize> {
        self.stream.write(buf)
    }

    fn flush(&mut self) -> io::Result<()> {
        self.stream.flush()
    }
}
