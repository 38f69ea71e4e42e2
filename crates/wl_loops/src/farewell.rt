//! A connection that is closing.
//!
//! What still comes is read and dropped, so that the close frame isn't lost: a system that gets bytes for a stream that
//! was closed with bytes unread resets it, and the peer loses what it hasn't read yet.

use crate::corkable::Corkable;
use crate::transport::Transport;
use std::io::{ErrorKind, Read};
use std::net::Shutdown;
use wl_wire::{Sending, Wire};

/// The bytes of one read.
const READ: usize = 2_048;

/// The reads of a turn at most.
const TURN: u32 = 16;

/// A connection to whose peer nothing more will be said.
#[derive(Drop)]
pub enum Farewell {
    /// The close frame has not left whole.
    Sending(Wire<Corkable<Transport>>),
    /// All has left, and the writing side is shut.
    Draining(Transport),
    Done,
}

impl Farewell {
    /// Begins, where the close frame was put.
    pub fn new(wire: Wire<Corkable<Transport>>, sending: Sending) -> Farewell {
        match sending {
            Sending::Left => shut(wire),
            Sending::Waits => Farewell::Sending(wire),
            Sending::Failed(_) => Farewell::Done,
        }
    }

    /// Whether nothing is left to be done.
    pub fn is_done(&self) -> bool {
        matches!(self, Farewell::Done)
    }

    /// Goes on, for as long as the stream doesn't block, or for a turn.
    pub fn go_on(self) -> Progress {
        match self {
            Farewell::Sending(wire) => {
                let mut wire = wire;
                let sending = wire.flush();
                let farewell = Farewell::new(wire, sending);
                // What shut the writing side has not read yet.
                let may_read = matches!(farewell, Farewell::Draining(_));
                Progress {
                    farewell,
                    dropped: 0,
                    may_read,
                }
            }
            Farewell::Draining(stream) => drain(stream),
            Farewell::Done => last_progress(0),
        }
    }
}

/// How far a farewell came in a turn.
#[derive(Drop)]
pub struct Progress {
    pub farewell: Farewell,
    /// The bytes that were dropped.
    pub dropped: u64,
    /// Whether there may be more to read at once.
    pub may_read: bool,
}

fn last_progress(dropped: u64) -> Progress {
    Progress {
        farewell: Farewell::Done,
        dropped,
        may_read: false,
    }
}

fn shut(wire: Wire<Corkable<Transport>>) -> Farewell {
    let stream = wire.into_stream().into_stream();
    match stream.shutdown(Shutdown::Write) {
        Ok(()) => Farewell::Draining(stream),
        Err(_) => Farewell::Done,
    }
}

/// Reads until the stream would block, and drops what came.
fn drain(stream: Transport) -> Progress {
    let mut stream = stream;
    let mut bytes = [0; READ];
    let mut dropped: u64 = 0;
    for _ in 0..TURN {
        match stream.read(&mut bytes) {
            Ok(0) => return last_progress(dropped),
            Ok(count) => dropped = dropped.saturating_add(count as u64),
            Err(error) => {
                if error.kind() != ErrorKind::WouldBlock {
                    return last_progress(dropped);
                }
                return Progress {
                    farewell: Farewell::Draining(stream),
                    dropped,
                    may_read: false,
                };
            }
        }
    }
    Progress {
        farewell: Farewell::Draining(stream),
        dropped,
        may_read: true,
    }
}
