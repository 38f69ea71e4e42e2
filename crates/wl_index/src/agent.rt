//! One agent, one signal, and the lists by which the requests of each are found.
ghost use Rattle.std.specs.Prelude.{◌≡◌, ◌<◌, ◌==◌, ◌&&◌, not, [], filter, OnOk};
ghost use Rattle.std.specs.Prelude.{OnErr, IfSome, IsSome, Some, None, ℕ, if◌then◌else◌};
ghost use Rattle.std.specs.List.{Contains};
ghost use Rattle.std.specs.Map.{keys_of, lookup, set_value};
ghost use Rattle.std.specs.List.Sorted.{IsStrictlySortedBy};
ghost use Rattle.std.specs.BTreeMap.{is_at, insert_entry};
ghost use Rattle.std.specs.Ordering.{nat_cmp};
ghost use Rattle.wl_index.specs.declared.agent.Agent.{Agent};
ghost use Rattle.wl_machine.specs.Refusals.{is_window};
ghost use Rattle.wl_index.specs.inner.AgentRows.{aborted};
ghost use Rattle.std.specs.Option.{option_copied};
ghost use Rattle.wl_index.specs.inner.Lists.{IsOn, IsRising, Keeps, KeepsLive, at, list_at};
ghost use Rattle.wl_index.specs.inner.Lists.{only_live, own_of, signed_of, is_spared};

use crate::listing::{enlist, retain_live};
use crate::requests::Requests;
use std::collections::BTreeMap;
use wl_number_map::NumberMap;
use wl_types::{Kind, Memory, Reason};

/// A live agent: numbers that rise, with those of all its live requests; and of each of its signals numbers that rise,
/// with those of all its live requests with that signal.
#[derive(Drop)]
pub struct Agent {
    pub kind: Kind,
    pub active: bool,
    pub requests: Vec<u64>,
    pub signals: BTreeMap<u64, Vec<u64>>,
}

/// A signal of a live agent, and why it was aborted, if it was.
#[derive(Clone, Copy, Drop)]
pub struct Signal {
    pub agent: u64,
    pub reason: Option<Reason>,
}

/// The numbers on an agent's list.
pub(crate) fn own_numbers(agent: Option<&Agent>) -> &[u64]
    ensures { result.now ≡ own_of (option_copied agent.entry) }
{
    match agent {
        Some(agent) => &agent.requests,
        None => &[],
    }
}

/// The numbers on the list of an agent's signal.
pub(crate) fn signed_numbers(agent: Option<&Agent>, signal: u64) -> &[u64]
    ensures { result.now ≡ signed_of signal (option_copied agent.entry) }
{
    match agent {
        Some(agent) => match agent.signals.get(&signal) {
            Some(list) => list,
            None => &[],
        },
        None => &[],
    }
}

/// A number comes to an agent's list, and to that of its signal, if it has one.
pub(crate) fn enroll(
    live: &Requests,
    agent: &mut Agent,
    signal: Option<u64>,
    number: u64,
) -> Result<(), Memory>
    requires rising { IsRising (Some agent.old) }
    requires signed { (s : ℕ) → signal ≡ Some s → IsSome (at s agent.old.signals.entries) }
    requires above { (n : ℕ) → IsSome (at n live.now.entries) → n < number }
    ensures rising { IsRising (Some agent.new) }
    ensures kept { Keeps live.now.entries (Some agent.old) (Some agent.new) }
    ensures same { (agent.new.kind ≡ agent.old.kind) × (agent.new.active ≡ agent.old.active)
        × (keys_of agent.new.signals.entries ≡ keys_of agent.old.signals.entries) }
    ensures on { OnOk result (IsOn (Some agent.new) number signal) }
{
    enlist(live, &mut agent.requests, number)?;
    match signal {
        Some(signal) => sign(live, &mut agent.signals, signal, number),
        None => Ok(()),
    }
}

/// A number comes to a signal's list.
pub(crate) fn sign(
    live: &Requests,
    signals: &mut BTreeMap<u64, Vec<u64>>,
    signal: u64,
    number: u64,
) -> Result<(), Memory>
    requires there { IsSome (at signal signals.old.entries) }
    requires rising { (s : ℕ) → IsStrictlySortedBy nat_cmp (list_at s signals.old.entries) }
    requires above { (n : ℕ) → IsSome (at n live.now.entries) → n < number }
    ensures rising { (s : ℕ) → IsStrictlySortedBy nat_cmp (list_at s signals.new.entries) }
    ensures kept { (s : ℕ) → KeepsLive live.now.entries (list_at s signals.old.entries)
        (list_at s signals.new.entries) }
    ensures keys { keys_of signals.new.entries ≡ keys_of signals.old.entries }
    ensures on { OnOk result (Contains (list_at signal signals.new.entries) number) }
{
    let list = signals.get_mut(&signal).unwrap();
    enlist(live, list, number)
}

/// A signal's list is cleaned.
pub(crate) fn clean_list(live: &Requests, signals: &mut BTreeMap<u64, Vec<u64>>, signal: u64)
    requires { (s : ℕ) → IsStrictlySortedBy nat_cmp (list_at s signals.old.entries) }
    ensures rising { (s : ℕ) → IsStrictlySortedBy nat_cmp (list_at s signals.new.entries) }
    ensures cleaned { list_at signal signals.new.entries ≡ only_live live.now.entries
        (list_at signal signals.old.entries) }
    ensures kept { (s : ℕ) → KeepsLive live.now.entries (list_at s signals.old.entries)
        (list_at s signals.new.entries) }
    ensures keys { keys_of signals.new.entries ≡ keys_of signals.old.entries }
{
    if let Some(list) = signals.get_mut(&signal) {
        retain_live(live, list);
        list.shrink_to_fit();
    }
}

/// A signal comes to its agent's list.
pub(crate) fn add_signal(
    agents: &mut NumberMap<Agent>,
    agent: u64,
    list: Vec<u64>,
    signal: u64,
) -> Result<(), Memory>
    requires { IsSome (lookup (is_at (nat_cmp agent)) agents.old.entries) }
    ensures ok { OnOk result (IfSome (lookup (is_at (nat_cmp agent)) agents.old.entries)
        (λ m. (now : Agent) × (agents.new.entries ≡ set_value (is_at (nat_cmp agent)) agents.old.entries now)
        × (now.kind ≡ m.kind) × (now.active ≡ m.active) × (now.requests ≡ m.requests)
        × (now.signals.entries ≡ insert_entry nat_cmp m.signals.entries signal list))) }
    ensures err { OnErr result (IfSome (lookup (is_at (nat_cmp agent)) agents.old.entries)
        (λ m. (now : Agent) × (agents.new.entries ≡ set_value (is_at (nat_cmp agent)) agents.old.entries now)
        × (now.kind ≡ m.kind) × (now.active ≡ m.active) × (now.requests ≡ m.requests)
        × (now.signals.entries ≡ m.signals.entries))) }
{
    let agent = agents.get_mut(agent).unwrap();
    agent.signals.insert(signal, list)?;
    Ok(())
}

/// A signal is aborted, if it is the agent's.
pub(crate) fn set_reason_of(signal: &mut Signal, agent: u64, reason: Reason)
    ensures { signal.new ≡ aborted agent reason signal.old }
{
    if signal.agent == agent {
        signal.reason = Some(reason);
    }
}

/// The signals of these numbers are gone.
pub(crate) fn remove_signals(signals: &mut NumberMap<Signal>, made: &BTreeMap<u64, Vec<u64>>)
    requires { IsStrictlySortedBy nat_cmp (keys_of signals.old.entries) }
    ensures entries { signals.new.entries ≡ filter (is_spared (keys_of made.now.entries)) signals.old.entries }
    ensures ordered { IsStrictlySortedBy nat_cmp (keys_of signals.new.entries) }
{
    for number in made.keys() {
        signals.remove(*number);
    }
}

/// Whether it is a window whose document isn't fully active.
pub(crate) fn is_inactive(agent: &Agent) -> bool
    ensures { result ≡ (is_window agent.now.kind && not agent.now.active) }
{
    agent.kind == Kind::Window && !agent.active
}

/// Whether it is a worker.
pub(crate) fn is_worker(agent: &Agent) -> bool
    ensures { result ≡ not (is_window agent.now.kind) }
{
    agent.kind == Kind::Worker
}

/// Why the signal was aborted, if it is the agent's and was.
pub(crate) fn reason_of(signal: &Signal, agent: u64) -> Option<Reason>
    ensures { result ≡ (if signal.now.agent == agent then signal.now.reason else None) }
{
    if signal.agent == agent {
        signal.reason
    } else {
        None
    }
}
