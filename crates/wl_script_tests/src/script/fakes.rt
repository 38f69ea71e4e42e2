//! Readers, writers and an answerer in memory, which fail where they are told to.

ghost use Rattle.std.specs.Prelude.{None, Some};
ghost use Rattle.wl_world.specs.Worlds.{journals_in, world_of};

use std::alloc::{AllocError, Global};
use wl_core::PlainCore;
use wl_script::{Answerer, Failed, Input, Output};
use wl_types::Memory;
use wl_world::Engine;

/// Three lines, the second empty and the last without LF. Each is answered by a fault, which tells them apart.
pub const SCRIPT: &[u8] = b"{\"id\":1}\n\n{\"id\":3}";

/// The replies to the three lines.
pub const REPLIES: &str =
    "{\"error\":{\"name\":\"TypeError\",\"rule\":\"agent\"},\"id\":1,\"notices\":[]}
{\"error\":{\"name\":\"BadJson\",\"rule\":\"json\"},\"id\":null,\"notices\":[]}
{\"error\":{\"name\":\"TypeError\",\"rule\":\"agent\"},\"id\":3,\"notices\":[]}
";

/// The replies to three lines that are no JSON, of 66 bytes each.
pub const BAD_JSON: &str =
    "{\"error\":{\"name\":\"BadJson\",\"rule\":\"json\"},\"id\":null,\"notices\":[]}
{\"error\":{\"name\":\"BadJson\",\"rule\":\"json\"},\"id\":null,\"notices\":[]}
{\"error\":{\"name\":\"BadJson\",\"rule\":\"json\"},\"id\":null,\"notices\":[]}
";

/// Gives its bytes in pieces of at most so many. At their end it fails, if it is to.
#[derive(Drop)]
pub struct Pieces<'a> {
    rest: &'a [u8],
    piece: usize,
    fails: bool,
    reads: u64,
    failures: u64,
}

pub fn in_pieces(rest: &[u8], piece: usize) -> Pieces<'_> {
    Pieces {
        rest,
        piece,
        fails: false,
        reads: 0,
        failures: 0,
    }
}

/// The same, with a failure in place of the end.
pub fn pieces_and_a_fault(rest: &[u8], piece: usize) -> Pieces<'_> {
    Pieces {
        rest,
        piece,
        fails: true,
        reads: 0,
        failures: 0,
    }
}

impl Input for Pieces<'_> {
    ghost rest = { λ s. Some s.rest.now };

    ghost reads = { λ s. s.reads };

    ghost failures = { λ s. s.failures };

    fn read(&mut self, buf: &mut [u8]) -> Result<usize, Failed> {
        self.reads = self.reads.wrapping_add(1);
        if self.fails && self.rest.is_empty() {
            self.failures = self.failures.wrapping_add(1);
            return Err(Failed);
        }
        let n = self.piece.max(1).min(buf.len()).min(self.rest.len());
        let (front, rest) = self.rest.split_at(n);
        buf[..n].copy_from_slice(front);
        self.rest = rest;
        Ok(n)
    }
}

/// What a writer does that has no room left.
#[derive(Clone, Copy, Drop)]
pub enum Full {
    Fails,
    TakesNone,
}

/// Takes at most so many bytes a call and so many in all.
#[derive(Drop)]
pub struct Room {
    pub bytes: Vec<u8>,
    pub calls: u64,
    room: usize,
    most: usize,
    full: Full,
    failures: u64,
}

/// A writer that takes so many bytes in all, and at most so many a call. It never grows.
pub fn slow_writer(
    alloc: Global,
    room: usize,
    most: usize,
    full: Full,
) -> Result<Room, AllocError> {
    Ok(Room {
        bytes: Vec::with_capacity(alloc, room)?,
        calls: 0,
        room,
        most,
        full,
        failures: 0,
    })
}

impl Output for Room {
    ghost held = { λ s. Some s.bytes.items };

    ghost failures = { λ s. s.failures };

    fn write(&mut self, piece: &[u8]) -> Result<usize, Failed> {
        self.calls = self.calls.wrapping_add(1);
        let n = self.room.min(self.most).min(piece.len());
        if n == 0 && !piece.is_empty() {
            self.failures = self.failures.wrapping_add(1);
            return match self.full {
                Full::Fails => Err(Failed),
                Full::TakesNone => Ok(0),
            };
        }
        match self.bytes.extend_from_slice(&piece[..n]) {
            Ok(()) => {
                self.room -= n;
                Ok(n)
            }
            Err(_) => {
                self.failures = self.failures.wrapping_add(1);
                Err(Failed)
            }
        }
    }
}

/// Answers so many lines, and then is out of memory.
#[derive(Drop)]
pub struct Refusing {
    pub inner: Engine<PlainCore>,
    pub left: u64,
}

impl Answerer for Refusing {
    ghost world = { λ s. world_of s.inner };

    ghost journals = { λ s. journals_in None s.inner };

    fn answer(&mut self, line: &[u8]) -> Result<String, Memory> {
        if self.left == 0 {
            return Err(Memory);
        }
        self.left -= 1;
        self.inner.answer(line)
    }
}
