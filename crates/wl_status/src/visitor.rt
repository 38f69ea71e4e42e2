//! One connection of a status server.

use http_server::{Config, Connection, Service};
use mio::net::TcpStream;
use std::alloc::Global;
use std::hash::RandomState;
use std::io::{ErrorKind, Read};
use std::net::Shutdown;

/// The milliseconds in which a request has to come, from when the connection began or the answer before it had left.
const READING: u64 = 10_000;

/// The milliseconds without a request after which it may be let go for another.
const PATIENCE: u64 = 100;

/// And those for which its peer hasn't taken all of an answer, or hasn't ended behind the last one.
const LONG_PATIENCE: u64 = 1_000;

/// The milliseconds in which an answer has to leave.
const WRITING: u64 = 30_000;

/// The milliseconds for which a peer that was answered for the last time may still send. A connection that is closed
/// before is reset, and the peer may lose the answer.
const LEAVING: u64 = 2_000;

/// The steps of a turn at most.
const STEPS: u32 = 32;

/// The bytes of a request's head at most.
const HEAD: usize = 16_384;

/// What comes after a turn.
#[derive(Clone, Copy, Debug, PartialEq, Eq)]
pub(crate) enum Next {
    /// The stream blocks.
    Waits,
    /// It has more to do, after the others' turns.
    Again,
    /// It is to be closed.
    Ended,
}

/// One connection. It has a request of some size, and an answer, and no more: the next request is read once the answer
/// has left.
#[derive(Drop)]
pub(crate) struct Visitor {
    stream: TcpStream,
    http: Connection,
    deadline: u64,
    is_leaving: bool,
}

/// A request has no body.
fn config() -> Config {
    let mut config = Config::default();
    config.limits.max_head_len = HEAD;
    config.max_body_len = 0;
    config.max_pending = 0;
    config.read_size = 4_096;
    config
}

impl Visitor {
    /// A visitor whose connection came at this time, in milliseconds: a request has 10 seconds from there.
    pub fn new(alloc: Global, stream: TcpStream, keys: RandomState, now: u64) -> Visitor {
        Visitor {
            stream,
            http: Connection::new(alloc, keys, config()),
            deadline: now.saturating_add(READING),
            is_leaving: false,
        }
    }

    /// Since when its peer has been waited for, where that is long enough for another to have its place.
    pub fn is_idle_since(&self, now: u64) -> Option<u64> {
        let (most, patience) = if self.is_leaving {
            (LEAVING, LONG_PATIENCE)
        } else if self.http.wants_write() {
            (WRITING, LONG_PATIENCE)
        } else {
            (READING, PATIENCE)
        };
        let since = self.deadline.saturating_sub(most);
        (now.saturating_sub(since) >= patience).then_some(since)
    }

    /// Goes on until the stream blocks, or others are to have a turn.
    pub fn go_on<S: Service>(&mut self, service: &mut S, now: u64) -> Next {
        if now >= self.deadline {
            return Next::Ended;
        }
        for _ in 0..STEPS {
            match self.step(service, now) {
                Next::Again => {}
                next => return next,
            }
        }
        Next::Again
    }

    fn step<S: Service>(&mut self, service: &mut S, now: u64) -> Next {
        if self.is_leaving {
            return self.drain();
        }
        let was_silent = !self.http.wants_write();
        self.http.advance(service);
        if self.http.is_done() {
            self.leave(now)
        } else if self.http.wants_write() {
            if was_silent {
                self.deadline = now.saturating_add(WRITING);
            }
            self.write(now)
        } else {
            self.read()
        }
    }

    fn read(&mut self) -> Next {
        match self.http.read_from(&mut self.stream) {
            Ok(_) => Next::Again,
            Err(error) => next_after(error.kind()),
        }
    }

    fn write(&mut self, now: u64) -> Next {
        match self.http.write_to(&mut self.stream) {
            Ok(0) => Next::Ended,
            Ok(_) => {
                if !self.http.wants_write() {
                    self.deadline = now.saturating_add(READING);
                }
                Next::Again
            }
            Err(error) => next_after(error.kind()),
        }
    }

    /// Says that nothing more comes.
    fn leave(&mut self, now: u64) -> Next {
        self.is_leaving = true;
        self.deadline = now.saturating_add(LEAVING);
        match self.stream.shutdown(Shutdown::Write) {
            Ok(()) => Next::Again,
            Err(_) => Next::Ended,
        }
    }

    /// Reads on to the end, and keeps nothing.
    fn drain(&mut self) -> Next {
        let mut bytes = [0; 4_096];
        match self.stream.read(&mut bytes) {
            Ok(0) => Next::Ended,
            Ok(_) => Next::Again,
            Err(error) => next_after(error.kind()),
        }
    }
}

fn next_after(kind: ErrorKind) -> Next {
    match kind {
        ErrorKind::WouldBlock => Next::Waits,
        ErrorKind::Interrupted => Next::Again,
        _ => Next::Ended,
    }
}
