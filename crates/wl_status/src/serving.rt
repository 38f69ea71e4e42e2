//! The thread of a status server.

use crate::admission::Admission;
use crate::answering::Answerer;
use crate::overview::Overview;
use crate::visitor::{Next, Visitor};
use http_server::Service;
use mio::net::TcpListener;
use mio::{Events, Interest, Poll, Token, Waker};
use std::alloc::{AllocError, Global};
use std::hash::RandomState;
use std::io;
use std::io::ErrorKind;
use std::net::{Net, SocketAddr};
use std::random::RandomSource;
use std::sync::Wait;
use std::sync::atomic::{AtomicBool, Ordering};
use std::time::{Clock, Duration, Instant};

/// The connections at once. A further one has the place of the one whose peer has been waited for the longest, or waits
/// while there is none.
const MOST: usize = 16;

/// The milliseconds between two looks at all connections.
const TICK: u64 = 500;

/// The events of one wait at most.
const EVENTS: usize = 64;

/// The token of the listener.
const LISTENER: usize = MOST;

/// The token of the waker.
const WAKER: usize = MOST + 1;

/// A server that shows the status of another one, on a thread of its own.
#[derive(Drop)]
pub struct StatusServer {
    listener: TcpListener,
    address: SocketAddr,
    poll: Poll,
    admission: Admission,
}

/// What ends a status server.
#[derive(Drop)]
pub struct StatusEnd {
    waker: Waker,
    is_told: AtomicBool,
}

impl StatusEnd {
    /// Has the server end, which it does once it has answered the request that it is at.
    pub fn tell(&self) {
        self.is_told.store(true, Ordering::SeqCst);
        let _ = self.waker.wake();
    }

    fn is_told(&self) -> bool {
        self.is_told.load(Ordering::SeqCst)
    }
}

impl StatusServer {
    /// Listens at this address. Requests may name it, this machine's names with its port, and these names.
    pub fn bind<N: Net>(
        net: &N,
        alloc: Global,
        address: SocketAddr,
        names: &[&str],
    ) -> io::Result<StatusServer> {
        let mut listener = TcpListener::bind(net, address)?;
        let address = listener.local_addr()?;
        let admission = Admission::of(alloc, address, names)?;
        let poll = Poll::new(net)?;
        poll.registry()
            .register(&mut listener, Token(LISTENER), Interest::READABLE)?;
        Ok(StatusServer {
            listener,
            address,
            poll,
            admission,
        })
    }

    /// Where it listens.
    pub fn address(&self) -> SocketAddr {
        self.address
    }

    /// What ends it.
    pub fn end(&self) -> io::Result<StatusEnd> {
        Ok(StatusEnd {
            waker: Waker::new(self.poll.registry(), Token(WAKER))?,
            is_told: AtomicBool::new(false),
        })
    }

    /// Answers requests until it is told to end, or the system fails.
    pub fn serve<R, O>(&mut self, rt: &R, overview: &O, end: &StatusEnd) -> io::Result<()>
    where
        R: Wait + Clock + RandomSource + AllocGlobal,
        O: Overview,
    {
        let alloc = rt.alloc();
        let mut visitors = empty_places(alloc)?;
        let mut events = Events::with_capacity(alloc, EVENTS)?;
        let start = Instant::now(rt)?;
        let mut is_busy = false;
        for _ in rt.forever() {
            self.wait(&mut events, is_busy)?;
            if end.is_told() {
                return Ok(());
            }
            let now = millis(Instant::now(rt)?.duration_since(start));
            let may_be_more = self.accept(rt, &mut visitors, now);
            let mut answerer = Answerer {
                alloc,
                rt,
                admission: &self.admission,
                overview,
            };
            is_busy = take_turns(&mut visitors, &mut answerer, now) || may_be_more;
        }
        Ok(())
    }

    /// Waits until something is ready, or it is time to look at all connections. It doesn't wait where one has more to
    /// do.
    fn wait(&mut self, events: &mut Events, is_busy: bool) -> io::Result<()> {
        let timeout = if is_busy {
            Duration::ZERO
        } else {
            Duration::from_millis(TICK)
        };
        match self.poll.poll(events, Some(timeout)) {
            Err(error) if error.kind() != ErrorKind::Interrupted => Err(error),
            _ => Ok(()),
        }
    }

    /// Takes in who waits, as far as there are places, and answers whether more may wait. Nobody loses its place before
    /// it had a turn: so these are no more than there are places. Where memory or file descriptors run out, it goes on at
    /// the next look.
    fn accept<R>(&self, rt: &R, visitors: &mut Vec<Option<Visitor>>, now: u64) -> bool
    where
        R: RandomSource + AllocGlobal,
    {
        for _ in 0..MOST {
            let Some(place) = place_for_next(visitors, now) else {
                return false;
            };
            let Ok(visitor) = self.visitor(rt, place, now) else {
                return false;
            };
            if let Some(seat) = visitors.get_mut(place) {
                *seat = Some(visitor);
            }
        }
        true
    }

    /// Accepts a connection for this place.
    fn visitor<R>(&self, rt: &R, place: usize, now: u64) -> io::Result<Visitor>
    where
        R: RandomSource + AllocGlobal,
    {
        let (mut stream, _) = self.listener.accept()?;
        let both = Interest::READABLE | Interest::WRITABLE;
        self.poll
            .registry()
            .register(&mut stream, Token(place), both)?;
        let _ = stream.set_nodelay(true);
        Ok(Visitor::new(rt.alloc(), stream, RandomState::new(rt)?, now))
    }
}

fn empty_places(alloc: Global) -> Result<Vec<Option<Visitor>>, AllocError> {
    let mut places = Vec::new(alloc);
    for _ in 0..MOST {
        places.push(None)?;
    }
    Ok(places)
}

/// The place of whoever comes next, if there is one for it.
fn place_for_next(visitors: &[Option<Visitor>], now: u64) -> Option<usize> {
    let mut found = None;
    let mut longest = u64::MAX;
    for (place, seat) in visitors.iter().enumerate() {
        let since = match seat {
            None => return Some(place),
            Some(visitor) => visitor.is_idle_since(now),
        };
        if let Some(since) = since {
            if since < longest {
                longest = since;
                found = Some(place);
            }
        }
    }
    found
}

/// Each connection has a turn. Answers whether there is more to do at once.
fn take_turns<S: Service>(visitors: &mut Vec<Option<Visitor>>, service: &mut S, now: u64) -> bool {
    let mut is_busy = false;
    for seat in visitors.iter_mut() {
        let next = match seat {
            Some(visitor) => visitor.go_on(service, now),
            None => Next::Waits,
        };
        match next {
            Next::Waits => {}
            Next::Again => is_busy = true,
            Next::Ended => {
                *seat = None;
                is_busy = true;
            }
        }
    }
    is_busy
}

/// A time in milliseconds, at most 2^64 - 1.
fn millis(time: Duration) -> u64 {
    time.as_millis().min(u64::MAX as u128) as u64
}
