//! The phases of a request, and what a command changes.

ghost use Rattle.std.specs.Prelude.{◌≡◌};
ghost use Rattle.wl_types.specs.Phases.{is_end, is_pending};

use crate::words::Reason;

/// Where a request stands. docs/MACHINE.md has the table of moves from one to the next.
#[derive(Clone, Copy, Debug, PartialEq, Eq, Drop)]
pub enum Phase {
    /// It waits in its name's queue.
    Pending,
    /// Its lock is held, and its agent wasn't told yet.
    Granted,
    /// Its lock is held, and its agent was told: its callback has started.
    Taken,
    /// It was to be granted at once or not at all, and could not be.
    Unavailable,
    /// Its signal was aborted, or its agent ended while it waited.
    Aborted(Reason),
    /// Its agent released the lock, or ended.
    Released,
    /// Another request took the lock by force.
    Stolen,
}

impl Phase {
    /// Whether no other phase comes after it.
    pub fn is_end(&self) -> bool
        ensures { result ≡ is_end self.now }
    {
        match self {
            Phase::Pending | Phase::Granted | Phase::Taken => false,
            Phase::Unavailable | Phase::Aborted(_) | Phase::Released | Phase::Stolen => true,
        }
    }

    /// Whether the request waits.
    pub fn is_pending(&self) -> bool
        ensures { result ≡ is_pending self.now }
    {
        matches!(self, Phase::Pending)
    }
}

/// A request, and the phase that a command brought it to.
#[derive(Clone, Copy, Debug, PartialEq, Eq, Drop)]
pub struct Change {
    pub id: u64,
    pub phase: Phase,
}

/// The numbers that the next agent, request and signal of a manager get, each from 1 to 2^53.
/// At 2^53 the numbers are spent. None is ever given twice.
#[derive(Clone, Copy, Debug, PartialEq, Eq, Drop)]
pub struct Numbers {
    pub agent: u64,
    pub request: u64,
    pub signal: u64,
}
