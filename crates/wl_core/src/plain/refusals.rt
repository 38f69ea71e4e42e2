//! Why the plain core refuses a command, memory aside.

ghost use Rattle.std.specs.Prelude.{◌≡◌, ◌+◌, length, nat_le, Some, None, true};
ghost use Rattle.wl_machine.specs.Refusals.{refusal};

use crate::limits::{AGENTS, NAME_BYTES, NUMBERS, REQUESTS, SIGNALS};
use crate::owners::{
    has_agent, has_signal_in, is_inactive_in, is_worker_in, reason_of, signal_count,
};
use crate::plain::PlainCore;
use wl_machine::{Command, HeldRow, PendingRow};
use wl_types::{Ask, Kind, Reason, Refusal};

/// Whether as many requests are live as may be.
fn is_full(held: &[HeldRow], pending: &[PendingRow]) -> bool
    ensures { result ≡ nat_le 65536 (length held.now + length pending.now) }
{
    pending.len() >= REQUESTS || held.len() >= REQUESTS - pending.len()
}

impl PlainCore {
    pub(crate) fn open_refusal(&self) -> Option<Refusal>
        ensures { result ≡ refusal self.now.state (Command.Enter Kind.Window) }
    {
        if self.agents.len() >= AGENTS {
            return Some(Refusal::TooManyAgents);
        }
        if self.next.agent >= NUMBERS {
            return Some(Refusal::NumbersSpent);
        }
        None
    }

    pub(crate) fn set_refusal(&self, agent: u64) -> Option<Refusal>
        ensures { result ≡ refusal self.now.state (Command.SetActive agent true) }
    {
        if !has_agent(&self.agents, agent) {
            return Some(Refusal::NoSuchAgent);
        }
        if is_worker_in(&self.agents, agent) {
            return Some(Refusal::NotAWindow);
        }
        None
    }

    pub(crate) fn signal_refusal(&self, agent: u64) -> Option<Refusal>
        ensures { result ≡ refusal self.now.state (Command.NewSignal agent) }
    {
        if !has_agent(&self.agents, agent) {
            return Some(Refusal::NoSuchAgent);
        }
        if signal_count(&self.signals, agent) >= SIGNALS {
            return Some(Refusal::TooManySignals);
        }
        if self.next.signal >= NUMBERS {
            return Some(Refusal::NumbersSpent);
        }
        None
    }

    pub(crate) fn request_refusal(&self, agent: u64, ask: &Ask) -> Option<Refusal>
        ensures { result ≡ refusal self.now.state (Command.Request agent ask.now) }
    {
        if !has_agent(&self.agents, agent) {
            return Some(Refusal::NoSuchAgent);
        }
        if is_inactive_in(&self.agents, agent) {
            return Some(Refusal::InvalidState);
        }
        if let Err(refusal) = ask.check() {
            return Some(refusal);
        }
        if let Some(signal) = ask.signal {
            if !has_signal_in(&self.signals, agent, signal) {
                return Some(Refusal::NoSuchSignal);
            }
            if let Some(reason) = reason_of(&self.signals, agent, signal) {
                return Some(Refusal::SignalAborted(reason));
            }
        }
        if ask.name.as_str().len() > NAME_BYTES {
            return Some(Refusal::NameTooLong);
        }
        if is_full(&self.held, &self.pending) {
            return Some(Refusal::TooManyRequests);
        }
        if self.next.request >= NUMBERS {
            return Some(Refusal::NumbersSpent);
        }
        None
    }

    pub(crate) fn abort_refusal(&self, agent: u64, signal: u64) -> Option<Refusal>
        ensures { result ≡ refusal self.now.state (Command.Abort agent signal Reason.AbortError) }
    {
        if !has_agent(&self.agents, agent) {
            return Some(Refusal::NoSuchAgent);
        }
        if !has_signal_in(&self.signals, agent, signal) {
            return Some(Refusal::NoSuchSignal);
        }
        None
    }

    pub(crate) fn terminate_refusal(&self, agent: u64) -> Option<Refusal>
        ensures { result ≡ refusal self.now.state (Command.Terminate agent) }
    {
        if !has_agent(&self.agents, agent) {
            return Some(Refusal::NoSuchAgent);
        }
        None
    }

    pub(crate) fn query_refusal(&self, agent: u64) -> Option<Refusal>
        ensures { result ≡ refusal self.now.state (Command.Query agent) }
    {
        if !has_agent(&self.agents, agent) {
            return Some(Refusal::NoSuchAgent);
        }
        if is_inactive_in(&self.agents, agent) {
            return Some(Refusal::InvalidState);
        }
        None
    }
}
