//! The end of standard input, for which a server may wait.

use crate::watching::Over;
use mio::unix::SourceFd;
use mio::{Events, Interest, Poll, Token};
use std::io;
use std::io::{ErrorKind, Read};
use std::net::Net;
use std::os::fd::RawFd;
use std::sync::{CondvarTimeouts, Wait};
use std::time::{Clock, Duration};

/// The descriptor of standard input.
const STANDARD_INPUT: RawFd = 0;

/// The bytes of it that are read at once.
const PIECE: usize = 4_096;

/// The milliseconds after which a wait for it looks whether the server has ended.
const PERIOD: u64 = 500;

/// What tells that standard input can be read without a wait.
#[derive(Drop)]
struct Readiness {
    poll: Poll,
    events: Events,
}

impl Readiness {
    /// Fails for a file, for instance, a read of which never waits.
    fn new<R: Net + AllocGlobal>(rt: &R) -> io::Result<Readiness> {
        let poll = Poll::new(rt)?;
        let events = Events::with_capacity(rt.alloc(), 1)?;
        poll.registry().register(&mut SourceFd(&STANDARD_INPUT), Token(0), Interest::READABLE)?;
        Ok(Readiness { poll, events })
    }

    /// Waits until there are bytes or the end, for a period at most, and answers whether there are.
    fn wait<R: Wait + Clock>(&mut self, rt: &R, over: &Over) -> bool {
        match self.look() {
            Ok(may_read) => may_read,
            // The system can't tell. A read might wait for ever, so there is none.
            Err(_) => {
                let _ = over.wait(rt, Duration::from_millis(PERIOD));
                false
            }
        }
    }

    fn look(&mut self) -> io::Result<bool> {
        // Registered anew it is told of once more, though it was told of before and not read to its end.
        self.poll.registry().reregister(
            &mut SourceFd(&STANDARD_INPUT),
            Token(0),
            Interest::READABLE,
        )?;
        let timeout = Duration::from_millis(PERIOD);
        match self.poll.poll(&mut self.events, Some(timeout)) {
            Ok(()) => Ok(!self.events.is_empty()),
            Err(error) if error.kind() == ErrorKind::Interrupted => Ok(false),
            Err(error) => Err(error),
        }
    }
}

/// Reads standard input until it ends or fails, or the server has ended.
pub fn wait_for_input<R>(rt: &R, over: &Over)
where
    R: Net + Wait + Clock + io::Input + AllocGlobal,
{
    let mut reader = rt.reader();
    let mut bytes = [0; PIECE];
    let mut readiness = Readiness::new(rt).ok();
    for _ in rt.forever() {
        let may_read = match &mut readiness {
            Some(readiness) => readiness.wait(rt, over),
            None => true,
        };
        if over.is_over(rt) {
            return;
        }
        if may_read && !matches!(reader.read(&mut bytes), Ok(1..)) {
            return;
        }
    }
}
