//! Taking connections in.

ghost use Rattle.std.specs.Prelude.{◌≡◌, ◌≢◌, ◌<◌, ℕ, length, IfSome, IfNone};
ghost use Rattle.wl_loops.specs.Transports.{token_of};

use crate::host::{AcceptFault, Event, Host};
use crate::shared::{Arrival, Shared, WAKER};
use crate::transport_listener::TransportListener;
use mio::{Registry, Token};
use std::io;
use std::io::ErrorKind;
use std::sync::Wait;
use wl_admission::Rejection;

/// The connections that are accepted in a turn.
const TURN: u32 = 1_024;

/// The token of the first listener.
const FIRST: usize = WAKER - 1;

/// The token of the listener of this place, from 0.
fn token_of(place: usize) -> usize
    ensures { result ≡ token_of place }
{
    FIRST.saturating_sub(place)
}

/// The system's numbers of two errors.
const ENFILE: i32 = 23;

const EMFILE: i32 = 24;

fn fault_of(error: &io::Error) -> AcceptFault {
    match error.raw_os_error() {
        Some(EMFILE) => AcceptFault::FilesOfProcess,
        Some(ENFILE) => AcceptFault::FilesOfSystem,
        _ => AcceptFault::Other(error.kind()),
    }
}

/// What takes connections in, and gives each to the loop that has the fewest.
#[derive(Drop)]
pub struct Acceptor {
    listeners: Vec<TransportListener>,
    // The loop whose turn it is, of those that have as few.
    next: usize,
    // Why the last connection wasn't to be had, where it wasn't.
    hindrance: Option<AcceptFault>,
}

impl Acceptor {
    /// Accepts from these listeners, and gives what comes to the first loop first.
    pub fn new(listeners: Vec<TransportListener>) -> Acceptor {
        Acceptor {
            listeners,
            next: 0,
            hindrance: None,
        }
    }

    /// Has this poll report, for each listener by a token of its own, when connections come in.
    pub fn register(&mut self, registry: &Registry) -> io::Result<()> {
        for place in 0..self.listeners.len() {
            if let Some(listener) = self.listeners.get_mut(place) {
                listener.register(registry, Token(token_of(place)))?;
            }
        }
        Ok(())
    }

    /// The place, from 0, of the listener that has this token; none where it is a connection's, which are far below.
    pub fn place_of(&self, token: usize) -> Option<usize>
        ensures found { IfSome result (λ place. token_of place ≡ token) }
        ensures there { IfSome result (λ place. place < length self.now.listeners.items) }
        ensures none { IfNone result ((place : ℕ) → place < length self.now.listeners.items → token_of place ≢ token) }
    {
        let place = FIRST.checked_sub(token)?;
        (place < self.listeners.len()).then_some(place)
    }

    /// Accepts from each listener.
    pub fn accept_all<R: Wait, H: Host>(&mut self, rt: &R, shared: &Shared<H>) {
        for place in 0..self.listeners.len() {
            self.accept_from(rt, shared, place);
        }
    }

    /// Accepts until the listener of this place would block. After want of memory or of file descriptors it stops too,
    /// and is to be asked again after a while, since no event comes for what waits already.
    pub fn accept_from<R: Wait, H: Host>(&mut self, rt: &R, shared: &Shared<H>, place: usize) {
        for _ in 0..TURN {
            let Some(listener) = self.listeners.get(place) else {
                return;
            };
            match listener.accept() {
                Ok((transport, source)) => {
                    self.hindrance = None;
                    match shared.take_place(rt, source) {
                        Ok(hold) => self.give(rt, shared, Arrival { transport, hold }),
                        // It is closed.
                        Err(Rejection::Memory) => shared.refuse_for_memory(source),
                        Err(_) => shared.host.note(Event::Dropped(source)),
                    }
                }
                Err(error) => match error.kind() {
                    ErrorKind::ConnectionAborted | ErrorKind::Interrupted => {}
                    ErrorKind::WouldBlock => return,
                    _ => return self.be_hindered(shared, fault_of(&error)),
                },
            }
        }
    }

    /// Tells why there is no connection to be had, unless that was told last.
    fn be_hindered<H: Host>(&mut self, shared: &Shared<H>, fault: AcceptFault) {
        if self.hindrance != Some(fault) {
            self.hindrance = Some(fault);
            shared.host.note(Event::CannotAccept(fault));
        }
    }

    /// Gives it to the loop that has the fewest. Where there is no memory for that it is closed.
    fn give<R: Wait, H: Host>(&mut self, rt: &R, shared: &Shared<H>, arrival: Arrival) {
        let hold = arrival.hold;
        let event_loop = shared.emptiest(self.next);
        self.next = event_loop.wrapping_add(1);
        if let Some(inbox) = shared.inboxes.get(event_loop) {
            inbox.count_in();
            if inbox.give(rt, arrival) {
                inbox.rouse();
                return;
            }
        }
        shared.refuse_for_memory(hold.source());
        shared.leave(rt, event_loop, hold);
    }
}
