//! Why the indexed core refuses a command, memory aside: by look-ups.

ghost use Rattle.std.specs.Prelude.{◌≡◌, Some, None, true};
ghost use Rattle.wl_machine.specs.Refusals.{refusal};

use crate::index::IndexCore;
pub(crate) use wl_core::limits::unless_refused;
use wl_core::limits::{AGENTS, NAME_BYTES, NUMBERS, REQUESTS, SIGNALS};
use wl_machine::Command;
use wl_types::{Ask, Kind, Reason, Refusal};

impl IndexCore {
    pub(crate) fn open_refusal(&self) -> Option<Refusal>
        ensures { result ≡ refusal self.now.state (Command.Enter Kind.Window) }
    {
        if self.agents.len() >= AGENTS {
            return Some(Refusal::TooManyAgents);
        }
        if self.agents.next_agent() >= NUMBERS {
            return Some(Refusal::NumbersSpent);
        }
        None
    }

    pub(crate) fn set_refusal(&self, agent: u64) -> Option<Refusal>
        ensures { result ≡ refusal self.now.state (Command.SetActive agent true) }
    {
        if !self.agents.has(agent) {
            return Some(Refusal::NoSuchAgent);
        }
        if self.agents.is_worker(agent) {
            return Some(Refusal::NotAWindow);
        }
        None
    }

    pub(crate) fn signal_refusal(&self, agent: u64) -> Option<Refusal>
        ensures { result ≡ refusal self.now.state (Command.NewSignal agent) }
    {
        if !self.agents.has(agent) {
            return Some(Refusal::NoSuchAgent);
        }
        if self.agents.signal_count(agent) >= SIGNALS {
            return Some(Refusal::TooManySignals);
        }
        if self.agents.next_signal() >= NUMBERS {
            return Some(Refusal::NumbersSpent);
        }
        None
    }

    pub(crate) fn request_refusal(&self, agent: u64, ask: &Ask) -> Option<Refusal>
        ensures { result ≡ refusal self.now.state (Command.Request agent ask.now) }
    {
        if !self.agents.has(agent) {
            return Some(Refusal::NoSuchAgent);
        }
        if self.agents.is_inactive(agent) {
            return Some(Refusal::InvalidState);
        }
        if let Err(refusal) = ask.check() {
            return Some(refusal);
        }
        if let Some(signal) = ask.signal {
            if !self.agents.has_signal(agent, signal) {
                return Some(Refusal::NoSuchSignal);
            }
            if let Some(reason) = self.agents.reason(agent, signal) {
                return Some(Refusal::SignalAborted(reason));
            }
        }
        if ask.name.as_str().len() > NAME_BYTES {
            return Some(Refusal::NameTooLong);
        }
        if self.locks.requests().len() >= REQUESTS {
            return Some(Refusal::TooManyRequests);
        }
        if self.locks.requests().next() >= NUMBERS {
            return Some(Refusal::NumbersSpent);
        }
        None
    }

    pub(crate) fn abort_refusal(&self, agent: u64, signal: u64) -> Option<Refusal>
        ensures { result ≡ refusal self.now.state (Command.Abort agent signal Reason.AbortError) }
    {
        if !self.agents.has(agent) {
            return Some(Refusal::NoSuchAgent);
        }
        if !self.agents.has_signal(agent, signal) {
            return Some(Refusal::NoSuchSignal);
        }
        None
    }

    pub(crate) fn terminate_refusal(&self, agent: u64) -> Option<Refusal>
        ensures { result ≡ refusal self.now.state (Command.Terminate agent) }
    {
        if !self.agents.has(agent) {
            return Some(Refusal::NoSuchAgent);
        }
        None
    }

    pub(crate) fn query_refusal(&self, agent: u64) -> Option<Refusal>
        ensures { result ≡ refusal self.now.state (Command.Query agent) }
    {
        if !self.agents.has(agent) {
            return Some(Refusal::NoSuchAgent);
        }
        if self.agents.is_inactive(agent) {
            return Some(Refusal::InvalidState);
        }
        None
    }
}
