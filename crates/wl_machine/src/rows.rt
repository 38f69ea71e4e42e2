//! The rows of the machine's lists.

ghost use Rattle.std.specs.Prelude.{◌≡◌};
ghost use Rattle.std.specs.Option.{option_eq};
ghost use Rattle.std.specs.Cmp.{partial_equiv_from_equiv};
ghost use Rattle.wl_machine.specs.Grants.{is_exclusive};
ghost use Rattle.wl_machine.specs.Refusals.{is_window};
ghost use Rattle.wl_machine.specs.Same.{same_reason, same_agent, same_signal, same_request, same_lock, same_numbers};
ghost use Rattle.wl_machine.specs.Alike.{same_agent_equiv, same_signal_equiv, same_request_equiv, same_lock_equiv};

use wl_types::{Kind, Mode, Name, Numbers, Reason};

/// An agent that opened and has not ended.
#[derive(Clone, Copy, Debug, Drop)]
pub struct AgentRow {
    pub number: u64,
    pub kind: Kind,
    /// A worker is always active.
    pub active: bool,
}

/// A signal of a live agent.
#[derive(Clone, Copy, Debug, Drop)]
pub struct SignalRow {
    /// The agent that made it, the only one that may use it.
    pub agent: u64,
    pub number: u64,
    /// Why it was aborted, if it was.
    pub reason: Option<Reason>,
}

/// A lock that is held.
#[derive(Debug, Drop)]
pub struct HeldRow {
    /// The number of the request that it was granted to.
    pub number: u64,
    pub agent: u64,
    pub name: Name,
    pub mode: Mode,
    pub signal: Option<u64>,
    /// Whether its agent was told of the grant.
    pub taken: bool,
}

/// A request that waits.
#[derive(Debug, Drop)]
pub struct PendingRow {
    pub number: u64,
    pub agent: u64,
    pub name: Name,
    pub mode: Mode,
    pub signal: Option<u64>,
}

/// Whether the mode is exclusive.
pub fn exclusive(mode: Mode) -> bool
    ensures { result ≡ is_exclusive mode }
{
    mode == Mode::Exclusive
}

fn window(kind: Kind) -> bool
    ensures { result ≡ is_window kind }
{
    kind == Kind::Window
}

fn same_reason(one: Reason, other: Reason) -> bool
    ensures { result ≡ same_reason one other }
{
    match (one, other) {
        (Reason::AbortError, Reason::AbortError) => true,
        (Reason::TimeoutError, Reason::TimeoutError) => true,
        (Reason::Code(one), Reason::Code(other)) => one == other,
        _ => false,
    }
}

fn same_abort(one: Option<Reason>, other: Option<Reason>) -> bool
    ensures { result ≡ option_eq same_reason one other }
{
    match (one, other) {
        (None, None) => true,
        (Some(one), Some(other)) => same_reason(one, other),
        _ => false,
    }
}

/// Whether the next numbers are the same.
pub fn same_next(one: Numbers, other: Numbers) -> bool
    ensures { result ≡ same_numbers one other }
{
    one.agent == other.agent && one.request == other.request && one.signal == other.signal
}

impl PartialEq for AgentRow {
    ghost eq = { same_agent };

    ghost laws = { partial_equiv_from_equiv same_agent_equiv };

    fn eq(&self, other: &AgentRow) -> bool {
        self.number == other.number
            && window(self.kind) == window(other.kind)
            && self.active == other.active
    }
}

impl PartialEq for SignalRow {
    ghost eq = { same_signal };

    ghost laws = { partial_equiv_from_equiv same_signal_equiv };

    fn eq(&self, other: &SignalRow) -> bool {
        self.agent == other.agent
            && self.number == other.number
            && same_abort(self.reason, other.reason)
    }
}

impl PartialEq for HeldRow {
    ghost eq = { same_lock };

    ghost laws = { partial_equiv_from_equiv same_lock_equiv };

    fn eq(&self, other: &HeldRow) -> bool {
        self.number == other.number
            && self.agent == other.agent
            && self.name.same(&other.name)
            && exclusive(self.mode) == exclusive(other.mode)
            && self.signal == other.signal
            && self.taken == other.taken
    }
}

impl PartialEq for PendingRow {
    ghost eq = { same_request };

    ghost laws = { partial_equiv_from_equiv same_request_equiv };

    fn eq(&self, other: &PendingRow) -> bool {
        self.number == other.number
            && self.agent == other.agent
            && self.name.same(&other.name)
            && exclusive(self.mode) == exclusive(other.mode)
            && self.signal == other.signal
    }
}

impl Eq for AgentRow {
    ghost laws = { same_agent_equiv };
}

impl Eq for SignalRow {
    ghost laws = { same_signal_equiv };
}

impl Eq for HeldRow {
    ghost laws = { same_lock_equiv };
}

impl Eq for PendingRow {
    ghost laws = { same_request_equiv };
}
