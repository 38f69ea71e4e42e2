//! One connection of a loop.

ghost use Rattle.std.specs.Prelude.{◌≡◌, true, false};
ghost use Rattle.wl_liveness.specs.Liveness.{due_of, new_liveness, after_ping, spared};
ghost use Rattle.wl_liveness.specs.declared.liveness.Due.TheVariants.{Nothing, Ping, End};

use crate::affinity::Affinity;
use crate::corkable::Corkable;
use crate::farewell::Farewell;
use crate::host::{Event, Host, Listener, Place};
use crate::seat::Seat;
use crate::talk::Talk;
use crate::transport::Transport;
use mio::Registry;
use std::mem;
use std::sync::Wait;
use wl_admission::{Admitted, Source};
use wl_liveness::{Due, Limits, Liveness};
use wl_types::Memory;
use wl_wire::{Ending, Greeted, Greeting, Pace, Sending, Wire};

/// How far a connection is.
#[derive(Drop)]
enum Stage<'a, R: Wait, P: Listener> {
    Greeting(Greeting<Corkable<Transport>>),
    Open(Talk<'a, R, P>),
    Closing(Farewell),
    Ended,
}

impl<'a, R: Wait, P: Listener> Stage<'a, R, P> {
    /// Pings the peer, where it can be, and answers whether the stream failed.
    fn ping(&mut self) -> bool {
        match self {
            Stage::Open(talk) => matches!(talk.wire.ping(), Sending::Failed(_)),
            _ => false,
        }
    }
}

/// When a connection is to have its next turn.
#[derive(Clone, Copy, Debug, PartialEq, Eq)]
pub enum Next {
    /// When its stream is ready for something, or something changed for it.
    Waits,
    /// Behind the others that have a turn.
    Again,
    /// Never: it is to be let go.
    Ended,
}

/// The milliseconds between two times at which a peer sends something up to which it is busy.
const BUSY: u64 = 1;

/// A connection. Its speaker ends when it is let go.
#[derive(Drop)]
pub struct Connection<'a, R: Wait, H: Host> {
    rt: &'a R,
    host: &'a H,
    place: Place,
    source: Source,
    stage: Stage<'a, R, H::Peer>,
    liveness: Liveness,
    // The bytes that had come when that was last looked at.
    came: u64,
    wants_pushes: bool,
    // Something may have changed that wasn't pushed.
    may_push: bool,
    affinity: Affinity,
    // When its peer last sent something, in the milliseconds of its loop.
    heard: u64,
    // In its last turn something came that its peer sent shortly behind what came before.
    pub is_busy: bool,
    // It stands among those that have a turn.
    pub is_queued: bool,
}

impl<'a, R: Wait, H: Host> Connection<'a, R, H> {
    /// A connection whose peer has still to ask for a WebSocket.
    pub fn new(
        rt: &'a R,
        host: &'a H,
        place: Place,
        source: Source,
        greeting: Greeting<Corkable<Transport>>,
        now: u64,
    ) -> Connection<'a, R, H>
        ensures { result.liveness ≡ new_liveness now }
    {
        Connection {
            rt,
            host,
            place,
            source,
            stage: Stage::Greeting(greeting),
            liveness: Liveness::new(now),
            came: 0,
            wants_pushes: false,
            may_push: false,
            affinity: Affinity::new(),
            heard: now,
            is_busy: false,
            is_queued: false,
        }
    }

    /// The stream is ready for something; its end may be there too.
    pub fn hear_of(&mut self, may_end: bool) {
        if let Stage::Open(talk) = &mut self.stage {
            talk.wire.wake_for(may_end);
        }
    }

    /// Something may have changed.
    pub fn mark(&mut self)
        ensures { self.new.may_push ≡ self.old.wants_pushes }
    {
        self.may_push = self.wants_pushes;
    }

    /// Another loop changed something.
    pub fn tell(&mut self) {
        self.affinity.tell();
    }

    /// The number of the place where it meets those that draw it, if another loop does.
    pub fn meeting_if_drawn(&self) -> Option<usize> {
        if !self.affinity.is_drawn() || self.is_queued {
            return None;
        }
        match &self.stage {
            Stage::Open(talk) => talk.seat.speaker()?.meeting(),
            _ => None,
        }
    }

    /// What drew it counts no more.
    pub fn stay(&mut self) {
        self.affinity = Affinity::new();
    }

    /// Has this poll report no more of its stream, and answers whether it won't. One that isn't open stays.
    pub fn detach(&self, registry: &Registry) -> bool {
        match &self.stage {
            Stage::Open(talk) => talk.detach(registry),
            _ => false,
        }
    }

    /// Has its stream and its speaker report to this place, and answers whether they will. Else it stays on its way.
    pub fn set_place(&mut self, registry: &Registry, place: Place) -> bool {
        let is_placed = match &mut self.stage {
            Stage::Open(talk) => talk.set_place(self.rt, self.host, registry, place),
            _ => false,
        };
        if is_placed {
            self.place = place;
            self.affinity = Affinity::new();
        }
        is_placed
    }

    /// Whether something may have changed that the speaker hasn't looked at.
    pub fn is_marked(&self) -> bool {
        match &self.stage {
            Stage::Open(talk) => talk
                .seat
                .speaker()
                .is_some_and(|speaker| speaker.is_marked()),
            _ => false,
        }
    }

    /// Goes on for as long as the stream doesn't block, or for a turn.
    pub fn go_on(&mut self, now: u64) -> Next {
        if matches!(self.stage, Stage::Open(..)) {
            return self.converse(now, false);
        }
        match mem::replace(&mut self.stage, Stage::Ended) {
            Stage::Greeting(greeting) => self.greet(greeting, now),
            Stage::Closing(farewell) => self.part(farewell, now),
            Stage::Open(..) | Stage::Ended => Next::Ended,
        }
    }

    /// Reads and answers, if it is open, but sends nothing: it is to go on behind that in any case.
    pub fn go_ahead(&mut self, now: u64) -> Next {
        if matches!(self.stage, Stage::Open(..)) {
            return self.converse(now, true);
        }
        Next::Again
    }

    fn greet(&mut self, greeting: Greeting<Corkable<Transport>>, now: u64) -> Next {
        match greeting.go_on() {
            Greeted::Waits(greeting) => {
                self.stage = Stage::Greeting(greeting);
                Next::Waits
            }
            Greeted::Open(wire, admitted) => {
                self.liveness.open(now);
                self.begin(wire, admitted, now)
            }
            Greeted::Refused(rejection) => {
                self.host.note(Event::Refused(self.source, rejection));
                Next::Ended
            }
            Greeted::NoHandshake => {
                self.host.note(Event::NoHandshake(self.source));
                Next::Ended
            }
            Greeted::Failed => Next::Ended,
        }
    }

    fn begin(&mut self, wire: Wire<Corkable<Transport>>, admitted: Admitted, now: u64) -> Next {
        self.wants_pushes = admitted.is_pushed();
        match self.host.begin(self.rt, self.place, admitted) {
            Ok(speaker) => {
                let seat = Seat::new(self.rt, speaker);
                self.stage = Stage::Open(Talk { seat, wire });
                self.converse(now, false)
            }
            Err(Memory) => self.close(wire, Ending::Memory, now),
        }
    }

    /// Goes on, where it is open.
    fn converse(&mut self, now: u64, is_corked: bool) -> Next {
        match self.talk(now, is_corked) {
            Ok(Pace::Waits) => Next::Waits,
            Ok(Pace::Again) => Next::Again,
            Err(ending) => self.begin_close(ending, now),
        }
    }

    /// A turn of a connection that is open, or why it is to end.
    fn talk(&mut self, now: u64, is_corked: bool) -> Result<Pace, Ending> {
        let Stage::Open(talk) = &mut self.stage else {
            return Err(Ending::Broken);
        };
        let talked = if is_corked {
            talk.go_on_corked(self.rt, &mut self.may_push)
        } else {
            talk.go_on(self.rt, &mut self.may_push)
        };
        if talk.wire.stream().take_drained() {
            self.liveness.hear(now);
        }
        let came = talk.wire.byte_count();
        self.is_busy = came != self.came && now.saturating_sub(self.heard) <= BUSY;
        if came != self.came {
            self.came = came;
            self.heard = now;
            self.liveness.hear(now);
            self.affinity.ask();
        }
        talked
    }

    /// Tells the peer why the connection ends, as far as it can be told.
    fn close(&mut self, wire: Wire<Corkable<Transport>>, ending: Ending, now: u64) -> Next {
        self.host.note(Event::Closed(self.source, ending));
        if ending == Ending::Broken {
            return Next::Ended;
        }
        let mut wire = wire;
        let sending = wire.close(ending);
        self.liveness.close(now);
        self.part(Farewell::new(wire, sending), now)
    }

    fn part(&mut self, farewell: Farewell, now: u64) -> Next {
        let progress = farewell.go_on();
        self.liveness.drop_bytes(progress.dropped);
        let is_over = self.liveness.due(now, self.host.limits()) == Due::End;
        if is_over || progress.farewell.is_done() {
            return Next::Ended;
        }
        self.stage = Stage::Closing(progress.farewell);
        if progress.may_read {
            Next::Again
        } else {
            Next::Waits
        }
    }

    /// Its loop served nobody for so many milliseconds.
    pub fn spare(&mut self, time: u64)
        ensures { self.new.liveness ≡ spared self.old.liveness time }
    {
        self.liveness.spare(time);
    }

    /// Pings a peer that is silent, and answers whether the connection is over. All that came up to `now` is known, and
    /// a ping leaves at `sent`.
    pub fn watch(&mut self, now: u64, sent: u64, limits: &Limits) -> bool
        ensures over { due_of self.old.liveness now limits.now ≡ End → result ≡ true }
        ensures pinged { due_of self.old.liveness now limits.now ≡ Ping
            → self.new.liveness ≡ after_ping self.old.liveness sent }
        ensures kept { due_of self.old.liveness now limits.now ≡ Nothing → result ≡ false }
        ensures same { due_of self.old.liveness now limits.now ≡ Nothing → self.new ≡ self.old }
    {
        match self.liveness.due(now, limits) {
            Due::Nothing => false,
            Due::End => {
                self.tell_end();
                true
            }
            Due::Ping => {
                self.liveness.ping(sent);
                self.stage.ping()
            }
        }
    }

    /// Tells of a connection whose time is over. One that is closing was told of before.
    fn tell_end(&self) {
        match self.stage {
            Stage::Greeting(_) => self.host.note(Event::Late(self.source)),
            Stage::Open(_) => self.host.note(Event::Silent(self.source)),
            Stage::Closing(_) | Stage::Ended => {}
        }
    }

    /// Begins to tell the peer that the server ends, where it can be told.
    pub fn go_away(&mut self, now: u64) -> Next {
        self.begin_close(Ending::Away, now)
    }

    /// Ends what is open, for this reason; what is closing goes on.
    fn begin_close(&mut self, ending: Ending, now: u64) -> Next {
        match mem::replace(&mut self.stage, Stage::Ended) {
            Stage::Open(talk) => {
                let Talk { seat, wire } = talk;
                drop(seat);
                self.close(wire, ending, now)
            }
            Stage::Closing(farewell) => self.part(farewell, now),
            Stage::Greeting(_) | Stage::Ended => Next::Ended,
        }
    }
}
