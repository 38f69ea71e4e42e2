//! Agents and their signals.
ghost use Rattle.std.specs.Prelude.{◌≡◌, ◌<◌, map, filter, not, length, ◌==◌, ◌&&◌};
ghost use Rattle.std.specs.List.{list_any};
ghost use Rattle.wl_machine.specs.Step.{with_reason, with_active};
ghost use Rattle.wl_machine.specs.Refusals.{is_window, reason_in, signals_of};

use wl_machine::{AgentRow, SignalRow};
use wl_types::{Kind, Reason};

/// Whether there is an agent of this number.
pub(crate) fn has_agent(agents: &[AgentRow], agent: u64) -> bool
    ensures { result ≡ list_any (λ row. row.number == agent) agents.now }
{
    agents.iter().any(|row| row.number == agent)
}

fn is_inactive_row(row: &AgentRow, agent: u64) -> bool
    ensures { result ≡ (row.now.number == agent && is_window row.now.kind && not row.now.active) }
{
    row.number == agent && row.kind == Kind::Window && !row.active
}

/// Whether the agent is a window made inactive.
pub(crate) fn is_inactive_in(agents: &[AgentRow], agent: u64) -> bool
    ensures { result ≡ list_any (λ row. row.number == agent && is_window row.kind && not row.active) agents.now }
{
    agents.iter().any(|row| is_inactive_row(row, agent))
}

fn is_worker_row(row: &AgentRow, agent: u64) -> bool
    ensures { result ≡ (row.now.number == agent && not (is_window row.now.kind)) }
{
    row.number == agent && row.kind == Kind::Worker
}

pub(crate) fn is_worker_in(agents: &[AgentRow], agent: u64) -> bool
    ensures { result ≡ list_any (λ row. row.number == agent && not (is_window row.kind)) agents.now }
{
    agents.iter().any(|row| is_worker_row(row, agent))
}

/// Makes an agent active or inactive.
pub(crate) fn set_active_in(agents: &mut Vec<AgentRow>, agent: u64, active: bool)
    ensures { agents.new.items ≡ map (with_active agent active) agents.old.items }
{
    for row in agents.iter_mut() {
        if row.number == agent {
            row.active = active;
        }
    }
}

/// Removes an agent.
pub(crate) fn remove_agent(agents: &mut Vec<AgentRow>, agent: u64)
    ensures { agents.new.items ≡ filter (λ row. not (row.number == agent)) agents.old.items }
{
    agents.retain(|row| !(row.number == agent));
}

pub(crate) fn has_signal_in(signals: &[SignalRow], agent: u64, signal: u64) -> bool
    ensures { result ≡ list_any (λ row. row.agent == agent && row.number == signal) signals.now }
{
    signals
        .iter()
        .any(|row| row.agent == agent && row.number == signal)
}

/// How many signals an agent has made.
pub(crate) fn signal_count(signals: &[SignalRow], agent: u64) -> usize
    ensures { result ≡ length (signals_of agent signals.now) }
{
    signals.iter().filter(|row| row.agent == agent).count()
}

/// The reason of the agent's signal of this number.
pub(crate) fn reason_of(signals: &[SignalRow], agent: u64, signal: u64) -> Option<Reason>
    ensures { result ≡ reason_in signals.now agent signal }
{
    for row in signals {
        if row.agent == agent && row.number == signal {
            return row.reason;
        }
    }
    None
}

/// Aborts a signal.
pub(crate) fn set_reason(signals: &mut Vec<SignalRow>, agent: u64, signal: u64, reason: Reason)
    ensures { signals.new.items ≡ map (with_reason agent signal reason) signals.old.items }
{
    for row in signals.iter_mut() {
        if row.agent == agent && row.number == signal {
            row.reason = Some(reason);
        }
    }
}

/// Removes an agent's signals.
pub(crate) fn remove_signals(signals: &mut Vec<SignalRow>, agent: u64)
    ensures { signals.new.items ≡ filter (λ row. not (row.agent == agent)) signals.old.items }
{
    signals.retain(|row| !(row.agent == agent));
}
