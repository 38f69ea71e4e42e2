//! What a server counts.

use crate::said::{RULES, grants_in, rule_in};
use std::alloc::Global;
use std::sync::atomic::{AtomicU64, Ordering};
use wl_admission::Rejection;
use wl_types::Memory;

/// The reasons for which a handshake is refused, and last those for which a connection ends before there was one.
pub const REASONS: [&str; 12] = [
    "bad-header",
    "bad-target",
    "several-origins",
    "several-tokens",
    "token-alone",
    "no-token",
    "unknown-token",
    "no-place",
    "memory",
    "dropped",
    "no-handshake",
    "late",
];

/// The place of a rejection among the reasons.
fn place_of(rejection: Rejection) -> usize {
    match rejection {
        Rejection::BadHeader => 0,
        Rejection::BadTarget => 1,
        Rejection::SeveralOrigins => 2,
        Rejection::SeveralTokens => 3,
        Rejection::TokenAlone => 4,
        Rejection::NoToken => 5,
        Rejection::UnknownToken => 6,
        Rejection::NoPlace => 7,
        Rejection::Memory => 8,
    }
}

/// The place of those that were dropped without a word.
const DROPPED: usize = 9;

/// That of those from which something else came.
const NO_HANDSHAKE: usize = 10;

/// That of those from which none came in time.
const LATE: usize = 11;

/// A number that only grows. Whoever adds is mostly one thread, so that its cache line stays where it is.
#[derive(Drop)]
pub struct Counter {
    number: AtomicU64,
}

impl Counter {
    /// A counter at 0.
    pub fn new() -> Counter {
        Counter {
            number: AtomicU64::new(0),
        }
    }

    /// Counts so many more. It begins at 0 again behind 2^64 - 1.
    pub fn add(&self, more: u64) {
        if more > 0 {
            self.number.fetch_add(more, Ordering::SeqCst);
        }
    }

    /// How many were counted.
    pub fn value(&self) -> u64 {
        self.number.load(Ordering::SeqCst)
    }
}

/// Counters by the place of what they count.
#[derive(Drop)]
pub struct Counters {
    counters: Vec<Counter>,
}

impl Counters {
    /// A counter at 0 for each of so many places.
    pub fn new(alloc: Global, places: usize) -> Result<Counters, Memory> {
        let mut counters = Vec::new(alloc);
        for _ in 0..places {
            counters.push(Counter::new())?;
        }
        Ok(Counters { counters })
    }

    /// Counts one at this place, if there is one.
    pub fn add(&self, place: usize) {
        if let Some(counter) = self.counters.get(place) {
            counter.add(1);
        }
    }

    /// How many were counted at this place: none where there is none.
    pub fn value(&self, place: usize) -> u64 {
        match self.counters.get(place) {
            Some(counter) => counter.value(),
            None => 0,
        }
    }
}

/// The handshakes that were refused, by the places of `REASONS`.
#[derive(Drop)]
pub struct Refused {
    pub by_reason: Counters,
}

impl Refused {
    /// None was refused yet.
    pub fn new(alloc: Global) -> Result<Refused, Memory> {
        Ok(Refused {
            by_reason: Counters::new(alloc, REASONS.len())?,
        })
    }

    /// A handshake was refused, or a connection before it.
    pub fn refuse(&self, rejection: Rejection) {
        self.by_reason.add(place_of(rejection));
    }

    /// A connection was closed without an answer.
    pub fn drop_one(&self) {
        self.by_reason.add(DROPPED);
    }

    /// What came over a connection was no handshake.
    pub fn hear_none(&self) {
        self.by_reason.add(NO_HANDSHAKE);
    }

    /// No handshake came in time.
    pub fn wait_in_vain(&self) {
        self.by_reason.add(LATE);
    }
}

/// What is counted of the connections of one loop. The loop's own thread alone adds.
#[derive(Drop)]
pub struct Counts {
    pub messages: Counter,
    pub pushes: Counter,
    pub grants: Counter,
    /// The bytes of messages, without those of frames.
    pub received: Counter,
    /// The bytes of replies and pushes, without those of frames.
    pub sent: Counter,
    pub opened: Counter,
    pub closed: Counter,
    /// The replies of an error, by the places of `RULES`.
    pub by_rule: Counters,
}

impl Counts {
    /// Nothing was counted yet.
    pub fn new(alloc: Global) -> Result<Counts, Memory> {
        Ok(Counts {
            messages: Counter::new(),
            pushes: Counter::new(),
            grants: Counter::new(),
            received: Counter::new(),
            sent: Counter::new(),
            opened: Counter::new(),
            closed: Counter::new(),
            by_rule: Counters::new(alloc, RULES.len())?,
        })
    }

    /// A message came.
    pub fn hear(&self, message: &[u8]) {
        self.messages.add(1);
        self.received.add(message.len() as u64);
    }

    /// A reply is to leave, which may have tokens then.
    pub fn reply(&self, text: &str) {
        self.grants.add(grants_in(text));
        if let Some(rule) = rule_in(text) {
            self.by_rule.add(rule);
        }
    }

    /// A push is to leave, which may have tokens then.
    pub fn push(&self, text: &str) {
        self.pushes.add(1);
        self.grants.add(grants_in(text));
    }

    /// A reply or a push leaves, with the tokens that it has.
    pub fn send(&self, text: &str) {
        self.sent.add(text.len() as u64);
    }
}
