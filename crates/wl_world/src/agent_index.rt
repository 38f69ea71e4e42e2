//! The requests of a manager by number, and of each agent the numbers that its requests are found by: the agent index.

ghost use Rattle.std.specs.Prelude.{◌≡◌, ◌∷◌, ◌++◌, [], map, filter, is_some, IfOk, IsSome, OnOk, Some, None, ℕ};
ghost use Rattle.std.specs.List.{Contains, flat_map};
ghost use Rattle.std.specs.List.Sorted.{IsStrictlySortedBy};
ghost use Rattle.std.specs.Map.{keys_of, values_of};
ghost use Rattle.std.specs.Ordering.{nat_cmp};
ghost use Rattle.wl_world.specs.Requests.{changed_requests, with_changes, after_collect, waiting, with_change, without};
ghost use Rattle.wl_world.specs.inner.Requests.{IsRising};
ghost use Rattle.wl_world.specs.inner.AgentIndex.{AreObserved, IsCovered, IsEach, IsEachAt, IsEnrolled, IsIndex};
ghost use Rattle.wl_world.specs.inner.AgentIndex.{coming, found, close_one, observed_of, collect_one};

use crate::requests::Request;
use std::alloc::Global;
use wl_number_map::NumberMap;
use wl_session::arrange;
use wl_types::{Change, Memory, Phase};

/// As a request comes, an agent's list has at most about twice as many numbers as its agent has live requests, and
/// twice this many more.
const SPARE: usize = 16;

/// Where an agent's requests are found: each of them is among its own, and is in its inbox if it changed. Numbers
/// of requests that have left may be among its own too, and one may be in the inbox twice.
#[derive(Drop)]
pub(crate) struct AgentRequests {
    pub own: Vec<u64>,
    pub inbox: Vec<u64>,
    // How many of its own are live, which says only when to look for those that are not.
    pub count: usize,
}

/// Only the numbers of live requests stay.
fn retain_live(live: &NumberMap<Request>, own: &mut Vec<u64>)
    ensures { own.new.items ≡ filter (λ number. is_some (found number live.now.entries)) own.old.items }
{
    own.retain(|number| live.contains(*number));
}

/// Numbers that have left are taken off the list once they are most of it. So its length follows what is live, and a
/// request costs two look-ups here at most, on average.
fn clean(live: &NumberMap<Request>, agent_requests: &mut AgentRequests)
    ensures own { (number : ℕ) → IsSome (found number live.now.entries) → Contains agent_requests.old.own.items number
        → Contains agent_requests.new.own.items number }
    ensures inbox { agent_requests.new.inbox.items ≡ agent_requests.old.inbox.items }
{
    if agent_requests.own.len() / 2 > agent_requests.count.saturating_add(SPARE) {
        retain_live(live, &mut agent_requests.own);
        agent_requests.count = agent_requests.own.len();
    }
}

/// An agent has another request.
fn enroll(
    live: &NumberMap<Request>,
    agent_requests: &mut AgentRequests,
    number: u64,
) -> Result<(), Memory>
    ensures { OnOk result (IsEnrolled live.now.entries (Some agent_requests.old) (Some agent_requests.new) number) }
{
    clean(live, agent_requests);
    agent_requests.own.push(number)?;
    agent_requests.inbox.push(number)?;
    agent_requests.count = agent_requests.count.saturating_add(1);
    Ok(())
}

/// An agent has another request, and an inbox if it had none.
fn enlist(
    alloc: Global,
    live: &NumberMap<Request>,
    agent_index: &mut NumberMap<AgentRequests>,
    agent: u64,
    number: u64,
) -> Result<(), Memory>
    ensures mine { OnOk result (IsEnrolled live.now.entries (found agent agent_index.old.entries)
        (found agent agent_index.new.entries) number) }
    ensures others { OnOk result ((other : ℕ) → (other ≡ agent → ⊥)
        → found other agent_index.new.entries ≡ found other agent_index.old.entries) }
{
    if let Some(agent_requests) = agent_index.get_mut(agent) {
        return enroll(live, agent_requests, number);
    }
    let mut agent_requests = AgentRequests {
        own: Vec::new(alloc),
        inbox: Vec::new(alloc),
        count: 0,
    };
    enroll(live, &mut agent_requests, number)?;
    agent_index.insert(agent, agent_requests)?;
    Ok(())
}

/// A change finds its request. The number of one that changed before is in the inbox.
fn note(
    live: &mut NumberMap<Request>,
    agent_index: &mut NumberMap<AgentRequests>,
    change: Change,
) -> Result<(), Memory>
    requires { IsIndex live.old.entries agent_index.old.entries }
    ensures index { OnOk result (IsIndex live.new.entries agent_index.new.entries) }
    ensures with_changes { OnOk result (values_of live.new.entries
        ≡ map (with_change change) (values_of live.old.entries)) }
{
    let Some(request) = live.get_mut(change.id) else {
        return Ok(());
    };
    let agent = request.agent;
    let is_in_inbox = request.changed.is_some();
    request.changed = Some(change.phase);
    if is_in_inbox {
        return Ok(());
    }
    match agent_index.get_mut(agent) {
        Some(agent_requests) => {
            agent_requests.inbox.push(change.id)?;
            Ok(())
        }
        None => unreachable!(),
    }
}

/// Each change finds its request, one after another.
pub(crate) fn note_all(
    live: &mut NumberMap<Request>,
    agent_index: &mut NumberMap<AgentRequests>,
    changes: &[Change],
) -> Result<(), Memory>
    requires { IsIndex live.old.entries agent_index.old.entries }
    ensures index { OnOk result (IsIndex live.new.entries agent_index.new.entries) }
    ensures with_changes { OnOk result (values_of live.new.entries
        ≡ with_changes changes.now (values_of live.old.entries)) }
{
    for change in changes {
        note(live, agent_index, *change)?;
    }
    Ok(())
}

/// Each change finds its request, but for those of the next request, which is not there yet: what it comes to by them.
fn note_others(
    live: &mut NumberMap<Request>,
    agent_index: &mut NumberMap<AgentRequests>,
    number: u64,
    changes: &[Change],
) -> Result<Phase, Memory>
    requires index { IsIndex live.old.entries agent_index.old.entries }
    requires greatest { IsRising 0 number (values_of live.old.entries) }
    ensures index { OnOk result (IsIndex live.new.entries agent_index.new.entries) }
    ensures greatest { OnOk result (IsRising 0 number (values_of live.new.entries)) }
    ensures with_changes { IfOk result (λ phase. (agent : ℕ)
        → values_of live.new.entries ++ coming agent number phase ∷ []
        ≡ with_changes changes.now (values_of live.old.entries ++ waiting agent number ∷ [])) }
{
    let mut phase = Phase::Pending;
    for change in changes {
        if change.id == number {
            phase = change.phase;
            continue;
        }
        note(live, agent_index, *change)?;
    }
    Ok(phase)
}

/// A new request comes with what it comes to at once, and each other change finds its request.
pub(crate) fn add(
    alloc: Global,
    live: &mut NumberMap<Request>,
    agent_index: &mut NumberMap<AgentRequests>,
    agent: u64,
    number: u64,
    changes: &[Change],
) -> Result<(), Memory>
    requires index { IsIndex live.old.entries agent_index.old.entries }
    requires greatest { IsRising 0 number (values_of live.old.entries) }
    ensures index { OnOk result (IsIndex live.new.entries agent_index.new.entries) }
    ensures added { OnOk result (values_of live.new.entries
        ≡ with_changes changes.now (values_of live.old.entries ++ waiting agent number ∷ [])) }
{
    let phase = note_others(live, agent_index, number, changes)?;
    enlist(alloc, live, agent_index, agent, number)?;
    let request = Request {
        number,
        agent,
        changed: Some(phase),
    };
    live.insert(number, request)?;
    Ok(())
}

/// What a request came to is added at the end of a list, if it is the agent's, and it leaves if it has ended.
fn collect_at(
    live: &mut NumberMap<Request>,
    agent: u64,
    number: u64,
    observed: &mut Vec<(u64, Phase)>,
) -> Result<(), Memory>
    ensures ordered { OnOk result (IsStrictlySortedBy nat_cmp (keys_of live.new.entries)) }
    ensures each { OnOk result (IsEachAt (collect_one agent) number live.old.entries live.new.entries) }
    ensures observed { OnOk result (observed.new.items ≡ observed.old.items
        ++ observed_of agent (found number live.old.entries)) }
{
    if let Some(request) = live.get_mut(number)
        && request.agent == agent
        && let Some(phase) = request.changed
    {
        observed.push((request.number, phase))?;
        if phase.is_end() {
            live.remove(number);
        } else {
            request.changed = None;
        }
    }
    Ok(())
}

/// All that is in an agent's inbox, one after another.
fn collect_all(
    alloc: Global,
    live: &mut NumberMap<Request>,
    agent: u64,
    numbers: &[u64],
) -> Result<Vec<(u64, Phase)>, Memory>
    requires ordered { IsStrictlySortedBy nat_cmp (keys_of live.old.entries) }
    requires sorted { IsStrictlySortedBy nat_cmp numbers.now }
    requires covered { IsCovered (collect_one agent) live.old.entries numbers.now }
    ensures ordered { OnOk result (IsStrictlySortedBy nat_cmp (keys_of live.new.entries)) }
    ensures each { OnOk result (IsEach (collect_one agent) live.old.entries live.new.entries) }
    ensures observed { IfOk result (λ observed. observed.items
        ≡ flat_map (λ number. observed_of agent (found number live.old.entries)) numbers.now) }
{
    let mut observed = Vec::new(alloc);
    for number in numbers {
        collect_at(live, agent, *number, &mut observed)?;
    }
    Ok(observed)
}

/// All that is in an agent's inbox.
fn collect_inbox(
    alloc: Global,
    live: &mut NumberMap<Request>,
    agent: u64,
    agent_requests: &mut AgentRequests,
) -> Result<Vec<(u64, Phase)>, Memory>
    requires ordered { IsStrictlySortedBy nat_cmp (keys_of live.old.entries) }
    requires covered { IsCovered (collect_one agent) live.old.entries agent_requests.old.inbox.items }
    ensures ordered { OnOk result (IsStrictlySortedBy nat_cmp (keys_of live.new.entries)) }
    ensures each { OnOk result (IsEach (collect_one agent) live.old.entries live.new.entries) }
    ensures own { OnOk result (agent_requests.new.own.items ≡ agent_requests.old.own.items) }
    ensures observed { IfOk result (λ observed. AreObserved agent live.old.entries agent_requests.old.inbox.items
        observed.items) }
{
    arrange(&mut agent_requests.inbox);
    let before = live.len();
    let observed = collect_all(alloc, live, agent, &agent_requests.inbox)?;
    agent_requests.inbox.clear();
    let left = before.saturating_sub(live.len());
    agent_requests.count = agent_requests.count.saturating_sub(left);
    Ok(observed)
}

/// The agent's changed requests are collected, by number.
pub(crate) fn collect(
    alloc: Global,
    live: &mut NumberMap<Request>,
    agent_index: &mut NumberMap<AgentRequests>,
    agent: u64,
) -> Result<Vec<(u64, Phase)>, Memory>
    requires { IsIndex live.old.entries agent_index.old.entries }
    ensures index { OnOk result (IsIndex live.new.entries agent_index.new.entries) }
    ensures changed { IfOk result (λ changed. changed.items ≡ changed_requests agent (values_of live.old.entries)) }
    ensures after_collect { OnOk result (values_of live.new.entries
        ≡ after_collect agent (values_of live.old.entries)) }
{
    let Some(agent_requests) = agent_index.get_mut(agent) else {
        return Ok(Vec::new(alloc));
    };
    collect_inbox(alloc, live, agent, agent_requests)
}

/// A request leaves if it is the agent's.
fn close_at(live: &mut NumberMap<Request>, agent: u64, number: u64)
    requires { IsStrictlySortedBy nat_cmp (keys_of live.old.entries) }
    ensures ordered { IsStrictlySortedBy nat_cmp (keys_of live.new.entries) }
    ensures each { IsEachAt (close_one agent) number live.old.entries live.new.entries }
{
    let Some(request) = live.get(number) else {
        return;
    };
    if request.agent == agent {
        live.remove(number);
    }
}

/// All requests of an agent leave.
fn close_all(live: &mut NumberMap<Request>, agent: u64, numbers: &[u64])
    requires ordered { IsStrictlySortedBy nat_cmp (keys_of live.old.entries) }
    requires covered { IsCovered (close_one agent) live.old.entries numbers.now }
    ensures ordered { IsStrictlySortedBy nat_cmp (keys_of live.new.entries) }
    ensures each { IsEach (close_one agent) live.old.entries live.new.entries }
{
    for number in numbers {
        close_at(live, agent, *number);
    }
}

/// The agent has left.
pub(crate) fn close(
    live: &mut NumberMap<Request>,
    agent_index: &mut NumberMap<AgentRequests>,
    agent: u64,
)
    requires { IsIndex live.old.entries agent_index.old.entries }
    ensures index { IsIndex live.new.entries agent_index.new.entries }
    ensures left { values_of live.new.entries ≡ without agent (values_of live.old.entries) }
{
    if let Some(agent_requests) = agent_index.remove(agent) {
        close_all(live, agent, &agent_requests.own);
    }
}

/// No request is left.
pub(crate) fn forget(live: &mut NumberMap<Request>, agent_index: &mut NumberMap<AgentRequests>)
    ensures index { IsIndex live.new.entries agent_index.new.entries }
    ensures none { values_of live.new.entries ≡ [] }
{
    live.clear();
    agent_index.clear();
}
