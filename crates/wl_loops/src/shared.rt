//! What the loops of a server share.

ghost use Rattle.std.specs.Prelude.{◌≡◌, true, false, is_some, None, IfOk, IfSome};
ghost use Rattle.std.specs.Arc.{arc_value};
ghost use Rattle.wl_loops.specs.Holds.{is_served, source_of};
ghost use Rattle.wl_loops.specs.Transports.{is_local};

use crate::host::{Event, Host, Ring};
use crate::rules::AdmissionRules;
use crate::transport::Transport;
use crossbeam_utils::CachePadded;
use mio::{Poll, Token, Waker};
use std::alloc::{AllocError, Global};
use std::io;
use std::net::Net;
use std::sync::atomic::{AtomicBool, AtomicU64, AtomicUsize, Ordering};
use std::sync::{Arc, Mutex, Wait};
use std::thread::sleep;
use std::time::{Clock, Duration};
use wl_admission::{PlaceLimits, Places, Rejection, Rules, Source};

/// The token of a loop's waker.
pub(crate) const WAKER: usize = usize::MAX;

/// The handshakes at once of peers that are told that there is no place: the rest is let go without a word.
const TURNED_AWAY: PlaceLimits = PlaceLimits {
    in_all: 64,
    by_address: 8,
    by_loopback: 64,
};

/// The looks at whether all loops have answered, and the milliseconds between two of them: 2 s in all.
const LOOKS: u32 = 200;

const PAUSE: u64 = 10;

/// Which place a connection has.
#[derive(Clone, Copy, Debug, PartialEq, Eq)]
pub(crate) enum Hold {
    /// One of those that are served.
    Served(Source),
    /// One of those that are turned away.
    TurnedAway(Source),
}

impl Hold {
    /// The address that has it.
    pub fn source(self) -> Source
        ensures { result ≡ source_of self }
    {
        match self {
            Hold::Served(source) | Hold::TurnedAway(source) => source,
        }
    }
}

/// A transport on its way to the loop that is to serve it.
#[derive(Drop)]
pub(crate) struct Arrival {
    pub transport: Transport,
    pub hold: Hold,
}

/// What others give to a loop.
///
/// A loop that is awake is never woken by a system call. Before it blocks it says that it sleeps, and then looks once
/// more at all that may be there for it; whoever gives it something does that first, and then wakes it if it can take
/// back that it sleeps. All of these steps stand in one order. So either the last look comes behind what was given, and
/// finds it; or what was given comes behind that look, hence behind the word that the loop sleeps, and whoever gave it
/// finds that word, or somebody else took it meanwhile and is waking the loop.
#[derive(Drop)]
pub(crate) struct Inbox {
    waker: Waker,
    is_asleep: AtomicBool,
    arrivals: Mutex<Vec<Arrival>>,
    // A stream or a connection was given to the loop since it last took them in.
    has_newcomers: AtomicBool,
    // The last beat that the loop answered.
    answered: AtomicU64,
    // The connections that it serves, and those that are on their way to it.
    connections: AtomicUsize,
}

impl Inbox {
    fn new(alloc: Global, waker: Waker) -> Inbox {
        Inbox {
            waker,
            is_asleep: AtomicBool::new(false),
            arrivals: Mutex::new(Vec::new(alloc)),
            has_newcomers: AtomicBool::new(false),
            answered: AtomicU64::new(0),
            connections: AtomicUsize::new(0),
        }
    }

    /// The loop has one connection more, or is about to.
    pub fn count_in(&self) {
        self.connections.fetch_add(1, Ordering::SeqCst);
    }

    /// It has one less.
    pub fn count_out(&self) {
        self.connections.fetch_sub(1, Ordering::SeqCst);
    }

    /// The loop is there, and was asked for that by this beat.
    pub fn answer(&self, beat: u64) {
        if self.answered.load(Ordering::SeqCst) != beat {
            self.answered.store(beat, Ordering::SeqCst);
        }
    }

    /// Wakes the loop, if it sleeps, for what was given to it before.
    pub fn rouse(&self) {
        if self.is_asleep.load(Ordering::SeqCst) && self.is_asleep.swap(false, Ordering::SeqCst) {
            self.wake();
        }
    }

    /// Has the wait of the loop that is under way, or else the next one, end.
    fn wake(&self) {
        let _ = self.waker.wake();
    }

    /// The loop is about to block, once it has looked at all that may be there for it; or it goes on.
    pub fn set_asleep(&self, is_asleep: bool) {
        self.is_asleep.store(is_asleep, Ordering::SeqCst);
    }

    /// Gives a stream to the loop, and answers whether there was memory for that; else it is closed.
    pub fn give<R: Wait>(&self, rt: &R, arrival: Arrival) -> bool {
        let is_given = self.arrivals.lock(rt).push(arrival).is_ok();
        self.set_newcomers();
        is_given
    }

    /// A stream or a connection was given to the loop.
    pub fn set_newcomers(&self) {
        self.has_newcomers.store(true, Ordering::SeqCst);
    }

    /// Whether something was given to the loop since it last took newcomers in.
    pub fn has_newcomers(&self) -> bool {
        self.has_newcomers.load(Ordering::SeqCst)
    }

    /// The same, and from now on it has none: whoever finds some takes them in.
    pub fn take_newcomers(&self) -> bool {
        self.has_newcomers() && self.has_newcomers.swap(false, Ordering::SeqCst)
    }

    /// One of the streams that were given to the loop, which is the loop's now.
    pub fn next_arrival<R: Wait>(&self, rt: &R) -> Option<Arrival> {
        self.arrivals.lock(rt).pop()
    }
}

/// What the loops of a server share.
#[derive(Drop)]
pub struct Shared<H> {
    pub(crate) alloc: Global,
    pub(crate) host: H,
    // Each apart from the others, since its loop writes to it in each turn.
    pub(crate) inboxes: Vec<CachePadded<Inbox>>,
    // How many loops don't wait.
    awake: CachePadded<AtomicUsize>,
    places: Mutex<Places>,
    turned_away: Mutex<Places>,
    rules: AdmissionRules,
    is_ending: AtomicBool,
    // How often it was asked whether the loops are there.
    beat: AtomicU64,
    // The connections that ever had a place.
    ever: AtomicU64,
}

/// What is shared, and each loop's own poll.
#[derive(Drop)]
pub struct LoopSetup<H> {
    pub shared: Shared<H>,
    pub polls: Vec<Poll>,
}

/// Makes what so many loops need. The rules are those of the network to begin with; whoever comes over a Unix socket is
/// admitted by the same pages and subprotocols, and without a token.
pub fn setup<N: Net, H>(
    net: &N,
    alloc: Global,
    host: H,
    loops: usize,
    limits: PlaceLimits,
    rules: Rules,
) -> io::Result<LoopSetup<H>>
where
    H: Drop,
    ensures { IfOk result (λ made. made.shared.rules.wants_tokens ≡ is_some rules.tokens) }
{
    let mut polls = Vec::new(alloc);
    let mut inboxes = Vec::new(alloc);
    for _ in 0..loops {
        let poll = Poll::new(net)?;
        let waker = Waker::new(poll.registry(), Token(WAKER))?;
        inboxes.push(CachePadded::new(Inbox::new(alloc, waker)))?;
        polls.push(poll)?;
    }
    let rules = AdmissionRules::new(alloc, rules)?;
    Ok(LoopSetup {
        shared: Shared {
            alloc,
            host,
            inboxes,
            awake: CachePadded::new(AtomicUsize::new(loops)),
            places: Mutex::new(Places::new(alloc, limits)),
            turned_away: Mutex::new(Places::new(alloc, TURNED_AWAY)),
            rules,
            is_ending: AtomicBool::new(false),
            beat: AtomicU64::new(0),
            ever: AtomicU64::new(0),
        },
        polls,
    })
}

impl<H> Shared<H> {
    /// Puts other rules of the network in place, for the connections that come from now on.
    pub fn set_rules<R: Wait>(&self, rt: &R, rules: Rules) -> Result<(), AllocError> {
        self.rules.set(rt, rules)
    }

    /// The rules by which handshakes of the network are admitted now. `Memory` comes only where the count of their
    /// owners is used up.
    pub fn rules<R: Wait>(&self, rt: &R) -> Result<Arc<Rules, Global>, AllocError> {
        self.rules.network(rt)
    }

    /// The rules by which this connection is admitted: none where it is turned away.
    pub(crate) fn rules_for<R: Wait>(
        &self,
        rt: &R,
        arrival: &Arrival,
    ) -> io::Result<Option<Arc<Rules, Global>>>
        ensures placed { IfOk result (λ rules. is_some rules ≡ is_served arrival.now.hold) }
        ensures local { is_local arrival.now.transport ≡ true
            → IfOk result (λ rules. IfSome rules (λ its. (arc_value its).tokens ≡ None)) }
        ensures wanted { is_local arrival.now.transport ≡ false → self.now.rules.wants_tokens ≡ true
            → IfOk result (λ rules. IfSome rules (λ its. is_some (arc_value its).tokens ≡ true)) }
    {
        match arrival.hold {
            Hold::Served(_) => Ok(Some(self.rules.of_peer(rt, arrival.transport.is_local())?)),
            Hold::TurnedAway(_) => Ok(None),
        }
    }

    /// Takes a place for a connection from this address, of those that are served, or else of those that are turned
    /// away. Refused: `NoPlace` where there is neither, `Memory`.
    pub(crate) fn take_place<R: Wait>(&self, rt: &R, source: Source) -> Result<Hold, Rejection>
        ensures { IfOk result (λ hold. source_of hold ≡ source) }
    {
        match self.places.lock(rt).take(source) {
            Ok(()) => {
                self.ever.fetch_add(1, Ordering::SeqCst);
                return Ok(Hold::Served(source));
            }
            Err(Rejection::NoPlace) => {}
            Err(rejection) => return Err(rejection),
        }
        self.turned_away.lock(rt).take(source)?;
        Ok(Hold::TurnedAway(source))
    }

    fn free_place<R: Wait>(&self, rt: &R, hold: Hold) {
        match hold {
            Hold::Served(source) => self.places.lock(rt).free(source),
            Hold::TurnedAway(source) => self.turned_away.lock(rt).free(source),
        }
    }

    /// A connection of this loop is over: its place is free again.
    pub(crate) fn leave<R: Wait>(&self, rt: &R, event_loop: usize, hold: Hold) {
        if let Some(inbox) = self.inboxes.get(event_loop) {
            inbox.count_out();
        }
        self.free_place(rt, hold);
    }

    /// The loop that has the fewest connections. Of several such it is the first from this one on, where behind the
    /// last loop comes the first.
    pub(crate) fn emptiest(&self, from: usize) -> usize {
        let loops = self.inboxes.len();
        let mut emptiest = 0;
        let mut fewest = usize::MAX;
        for step in 0..loops {
            let event_loop = from.wrapping_add(step) % loops;
            if let Some(inbox) = self.inboxes.get(event_loop) {
                let connections = inbox.connections.load(Ordering::SeqCst);
                if connections < fewest {
                    emptiest = event_loop;
                    fewest = connections;
                }
            }
        }
        emptiest
    }

    /// How many connections have a place.
    pub fn connections<R: Wait>(&self, rt: &R) -> u32 {
        self.places.lock(rt).count_in_use()
    }

    /// How many connections ever had one.
    pub fn connections_ever(&self) -> u64 {
        self.ever.load(Ordering::SeqCst)
    }

    /// Whether each loop has a turn within 2 s. It waits until all had one, or for that long.
    pub fn all_answer<C: Clock>(&self, clock: &C) -> bool {
        let beat = self.beat.fetch_add(1, Ordering::SeqCst).wrapping_add(1);
        self.rouse_all();
        for _ in 0..LOOKS {
            if self.have_answered(beat) {
                return true;
            }
            sleep(clock, Duration::from_millis(PAUSE));
        }
        self.have_answered(beat)
    }

    /// Wakes each loop that sleeps.
    fn rouse_all(&self) {
        for inbox in &self.inboxes {
            inbox.rouse();
        }
    }

    /// Whether each loop has answered this beat, or a later one.
    fn have_answered(&self, beat: u64) -> bool {
        self.inboxes
            .iter()
            .all(|inbox| inbox.answered.load(Ordering::SeqCst) >= beat)
    }

    /// The last beat.
    pub(crate) fn beat(&self) -> u64 {
        self.beat.load(Ordering::SeqCst)
    }

    /// A loop is about to wait for events.
    pub(crate) fn count_waiting(&self) {
        self.awake.fetch_sub(1, Ordering::SeqCst);
    }

    /// Its wait has ended.
    pub(crate) fn count_awake(&self) {
        self.awake.fetch_add(1, Ordering::SeqCst);
    }

    /// Whether there are other loops, and all of them wait: asked by one that doesn't.
    pub(crate) fn others_wait(&self) -> bool {
        self.inboxes.len() > 1 && self.awake.load(Ordering::SeqCst) <= 1
    }

    /// Whether the loops are to end.
    pub(crate) fn is_ending(&self) -> bool {
        self.is_ending.load(Ordering::SeqCst)
    }

    /// Has all loops end.
    pub fn end(&self) {
        self.is_ending.store(true, Ordering::SeqCst);
        for inbox in &self.inboxes {
            inbox.wake();
        }
    }
}

impl<H: Host> Shared<H> {
    /// Tells that a connection from there is closed for want of memory.
    pub(crate) fn refuse_for_memory(&self, source: Source) {
        self.host.note(Event::Refused(source, Rejection::Memory));
    }

    /// Wakes the other loops whose connections were marked. Whoever marked one calls this afterwards, so that a loop
    /// which somebody else is about to look at is left to him.
    pub(crate) fn wake_marked(&self, own: usize) {
        if !self.host.take_alarm() {
            return;
        }
        for (event_loop, inbox) in self.inboxes.iter().enumerate() {
            if event_loop != own && self.is_rung(event_loop) {
                inbox.rouse();
            }
        }
    }

    /// Whether connections of this loop were marked that it hasn't collected.
    pub(crate) fn is_rung(&self, event_loop: usize) -> bool {
        match self.host.ring(event_loop) {
            Some(ring) => ring.is_rung(),
            None => false,
        }
    }
}
