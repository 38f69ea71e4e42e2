//! A loop, and the connections that it serves.

ghost use Rattle.std.specs.Prelude.{◌≡◌, ◌-◌, ◌<◌, ◌≤◌, ℕ};
ghost use Rattle.wl_loops.specs.Sweeps.{EachWatched};

mod moves;
mod turns;
mod waits;

use crate::accepting::Acceptor;
use crate::connection::{Connection, Next};
use crate::corkable::Corkable;
use crate::host::{Host, Place};
use crate::lobby::Lobby;
use crate::served::{Served, spare_all, watch_all};
use crate::shared::{Arrival, Inbox, Shared, WAKER};
use crate::transport_listener::TransportListener;
use mio::event::Event;
use mio::{Events, Poll, Token};
use slab::Slab;
use std::io;
use std::sync::Wait;
use std::time::{Clock, Duration, Instant};
use wl_wire::Greeting;

/// The events of one wait at most.
const EVENTS: usize = 1_024;

/// The waits of one round at most.
const WAITS: usize = 64;

/// The milliseconds between two looks at all connections.
const SWEEP: u64 = 500;

/// The milliseconds between two looks at the clock beyond which a loop was held up: it waits for `SWEEP` at most.
const HELD_UP: u64 = 2_000;

/// The streams, or the connections of other loops, that are taken in at once at most.
const MOST_NEWCOMERS: usize = 65_536;

/// A loop, and the connections that it serves.
#[derive(Drop)]
pub struct EventLoop<'a, 'b, R: Wait, H: Host> {
    rt: &'a R,
    shared: &'a Shared<H>,
    // None where each connection stays on its loop.
    lobby: Option<&'b Lobby<'a, R, H>>,
    number: usize,
    poll: Poll,
    // None once the server ends.
    acceptor: Option<Acceptor>,
    served: Slab<Served<'a, R, H>>,
    // The keys of those that have a turn. Each is there once.
    queue: Vec<usize>,
    // Lent to `take_turns` and `take_marked`, so that they make no list each time.
    keys: Vec<usize>,
    start: Instant,
    // The milliseconds since the start, when the last wait ended.
    now: u64,
    // And when the clock was looked at last.
    looked: u64,
    // A connection that had a turn since the last wait is busy.
    is_busy: bool,
    swept: u64,
    // The server ends: what is left are connections that are closing.
    is_leaving: bool,
}

impl<'a, 'b, R: Wait + Clock, H: Host> EventLoop<'a, 'b, R, H> {
    /// The loop of this number, from 0. One of a server's loops has the listeners, all of them; the others have none.
    /// All loops have the same start, since a connection takes its times along to another loop.
    pub fn new(
        rt: &'a R,
        shared: &'a Shared<H>,
        lobby: Option<&'b Lobby<'a, R, H>>,
        number: usize,
        poll: Poll,
        listeners: Vec<TransportListener>,
        start: Instant,
    ) -> EventLoop<'a, 'b, R, H> {
        let alloc = shared.alloc;
        EventLoop {
            rt,
            shared,
            lobby,
            number,
            poll,
            acceptor: Some(Acceptor::new(listeners)),
            served: Slab::new(alloc),
            queue: Vec::new(alloc),
            keys: Vec::new(alloc),
            start,
            now: 0,
            looked: 0,
            is_busy: false,
            swept: 0,
            is_leaving: false,
        }
    }

    /// Serves until the server ends, or the system fails. Where the server ends, each peer is told so, where it can be,
    /// and has the time of a connection that is closing to read it.
    pub fn serve(&mut self) -> io::Result<()> {
        let mut events = Events::with_capacity(self.shared.alloc, EVENTS)?;
        if let Some(acceptor) = &mut self.acceptor {
            acceptor.register(self.poll.registry())?;
        }
        for _ in self.rt.forever() {
            if self.shared.is_ending() {
                self.go_away();
                if self.served.is_empty() {
                    return Ok(());
                }
            }
            self.wait(&mut events)?;
            self.begin_round();
            self.answer_beat();
            self.take_events(&mut events)?;
            self.look_again(&mut events)?;
            self.take_newcomers();
            // What is marked by now is mostly changes from other loops, and behind these turns what they changed here.
            self.take_marked(true);
            self.take_turns();
            self.shared.wake_marked(self.number);
            self.take_marked(false);
            self.take_turns();
            self.sweep_in_time();
            self.shared.wake_marked(self.number);
        }
        Ok(())
    }

    /// A wait has ended, and a round of turns begins.
    fn begin_round(&mut self) {
        self.look_at_clock();
        self.now = self.looked;
        self.shared.host.tell_time(self.now);
    }

    /// A loop that was held up since its last look at the clock, as where its process was stopped, hasn't read yet what
    /// peers sent meanwhile. So no more of that time is silence than what a loop waits for. It looks behind each turn: else
    /// a loop would take the time of its own work for such a time, and a peer that vanished would be kept the longer the
    /// more others send.
    fn look_at_clock(&mut self) {
        let before = self.looked;
        self.looked = self.read_clock();
        let time = self.looked.saturating_sub(before);
        if time > HELD_UP {
            let spared = time - SWEEP;
            spare_all(&mut self.served, spared);
            // Whoever is heard of in what is left of this round isn't older than who was spared.
            self.now = self.now.saturating_add(spared);
        }
    }

    /// The milliseconds since the start, or those of the last look where the system has no clock.
    fn read_clock(&self) -> u64 {
        match Instant::now(self.rt) {
            Ok(now) => millis(now.duration_since(self.start)),
            Err(_) => self.looked,
        }
    }

    /// Answers whoever asked whether this loop has turns.
    fn answer_beat(&self) {
        if let Some(inbox) = self.shared.inboxes.get(self.number) {
            inbox.answer(self.shared.beat());
        }
    }

    /// Takes note of all that is ready: where a wait told of as much as it can, there may be more.
    fn take_events(&mut self, events: &mut Events) -> io::Result<()> {
        for _ in 0..WAITS {
            self.note_events(events);
            if events.iter().count() < EVENTS {
                return Ok(());
            }
            self.poll_for(events, Duration::ZERO)?;
        }
        Ok(())
    }

    /// Where it is time to look at all connections, takes note of what came until the time by which that tells who was
    /// silent. Between the wait and that time the loop may have stood still, and a wait that a signal ended tells nothing.
    fn look_again(&mut self, events: &mut Events) -> io::Result<()> {
        if self.now.saturating_sub(self.swept) < SWEEP {
            return Ok(());
        }
        self.poll_for(events, Duration::ZERO)?;
        self.take_events(events)
    }

    /// Takes note of what these tell.
    fn note_events(&mut self, events: &Events) {
        for event in events {
            match event.token().0 {
                // What it was woken for stands elsewhere.
                WAKER => {}
                token => match self.listener_of(token) {
                    Some(place) => self.accept_from(place),
                    None => self.hear_of(token, event),
                },
            }
        }
    }

    /// The place of the listener that has this token, if it isn't a connection's.
    fn listener_of(&self, token: usize) -> Option<usize> {
        self.acceptor.as_ref()?.place_of(token)
    }

    /// The stream of this key is ready for something.
    fn hear_of(&mut self, key: usize, event: &Event) {
        if let Some(served) = self.served.get_mut(key) {
            // A report after which the stream's end isn't reported once more.
            let may_end = event.is_read_closed() || event.is_write_closed() || event.is_error();
            served.connection.hear_of(may_end);
            self.enqueue(key);
        }
    }

    /// Takes in what waits at the listener of this place.
    fn accept_from(&mut self, place: usize) {
        if let Some(acceptor) = &mut self.acceptor {
            acceptor.accept_from(self.rt, self.shared, place);
        }
    }

    /// Takes in what waits at all listeners.
    fn accept_all(&mut self)
        ensures { self.new.served ≡ self.old.served }
    {
        if let Some(acceptor) = &mut self.acceptor {
            acceptor.accept_all(self.rt, self.shared);
        }
    }

    /// Takes in what was given to this loop.
    fn take_newcomers(&mut self) {
        if let Some(inbox) = self.shared.inboxes.get(self.number) {
            if inbox.take_newcomers() {
                self.take_arrivals(inbox);
                self.take_moved();
            }
        }
    }

    fn take_arrivals(&mut self, inbox: &Inbox) {
        for _ in 0..MOST_NEWCOMERS {
            let Some(arrival) = inbox.next_arrival(self.rt) else {
                return;
            };
            let hold = arrival.hold;
            if self.is_leaving {
                self.shared.leave(self.rt, self.number, hold);
            } else if self.take_in(arrival).is_err() {
                self.shared.refuse_for_memory(hold.source());
                self.shared.leave(self.rt, self.number, hold);
            }
        }
    }

    /// Takes a transport in. Where that fails it is closed.
    fn take_in(&mut self, arrival: Arrival) -> io::Result<()> {
        self.served.reserve(1)?;
        let key = self.served.vacant_key();
        let rules = self.shared.rules_for(self.rt, &arrival)?;
        let Arrival { transport, hold } = arrival;
        transport.register(self.poll.registry(), Token(key))?;
        transport.set_nodelay();
        let greeting = Greeting::new(self.shared.alloc, Corkable::new(transport), rules)?;
        let place = Place {
            event_loop: self.number,
            key,
        };
        let host = &self.shared.host;
        let source = hold.source();
        let connection = Connection::new(self.rt, host, place, source, greeting, self.now);
        let key = self.served.insert(Served { connection, hold })?;
        self.enqueue(key);
        Ok(())
    }

    /// The connection of this key gets a turn. Where there is no memory for that, it ends.
    fn enqueue(&mut self, key: usize) {
        let Some(served) = self.served.get_mut(key) else {
            return;
        };
        if served.connection.is_queued {
            return;
        }
        served.connection.is_queued = true;
        if self.queue.push(key).is_err() {
            self.end_one(key);
        }
    }

    fn end_one(&mut self, key: usize) {
        if let Some(Served { connection, hold }) = self.served.try_remove(key) {
            drop(connection);
            self.shared.leave(self.rt, self.number, hold);
        }
    }

    /// Looks at all connections, if it is time to: silent peers are pinged, and those that are over end. What came until
    /// the round began was read in the turns since, which may have taken long: so a ping leaves later than that.
    fn sweep_in_time(&mut self)
        ensures late { 500 ≤ self.old.now - self.old.swept → (sent : ℕ) × EachWatched (λ one. one.connection.liveness)
            self.old.now sent (H.held_to self.old.shared.now.host) self.old.served self.new.served }
        ensures soon { self.old.now - self.old.swept < 500 → self.new.served ≡ self.old.served }
    {
        if self.now.saturating_sub(self.swept) < SWEEP {
            return;
        }
        self.swept = self.now;
        let sent = self.read_clock();
        watch_all(
            self.rt,
            self.shared,
            self.number,
            &mut self.served,
            self.now,
            sent,
        );
        self.accept_all();
        // Those for which there was no memory are looked at once more.
        if let Some(inbox) = self.shared.inboxes.get(self.number) {
            inbox.set_newcomers();
        }
    }

    /// Takes no more connections, and begins to tell each peer that the server ends.
    fn go_away(&mut self) {
        if self.is_leaving {
            return;
        }
        self.is_leaving = true;
        self.acceptor = None;
        self.close_room();
        for key in 0..self.served.capacity() {
            let next = match self.served.get_mut(key) {
                Some(served) => served.connection.go_away(self.now),
                None => Next::Waits,
            };
            match next {
                Next::Waits => {}
                Next::Again => self.enqueue(key),
                Next::Ended => self.end_one(key),
            }
        }
    }
}

/// A time in milliseconds, at most 2^64 - 1.
fn millis(time: Duration) -> u64 {
    time.as_millis().min(u64::MAX as u128) as u64
}
