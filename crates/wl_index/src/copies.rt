//! The lists of an indexed core, row by row, for a plain core.

ghost use Rattle.std.specs.Prelude.{◌≡◌, [], ◌∷◌, ◌++◌, map, IfOk, OnOk, IsSome, IfSome};
ghost use Rattle.std.specs.List.Sorted.{IsStrictlySortedBy};
ghost use Rattle.std.specs.Map.{keys_of, lookup};
ghost use Rattle.std.specs.BTreeMap.{is_at};
ghost use Rattle.std.specs.Ordering.{nat_cmp};
ghost use Rattle.wl_machine.specs.declared.rows.HeldRow.{HeldRow};
ghost use Rattle.wl_machine.specs.State.{opening};
ghost use Rattle.wl_index.specs.inner.Rows.{held_of, pending_of, lock_row, is_taken};
ghost use Rattle.wl_index.specs.inner.Queues.{names_of};
ghost use Rattle.wl_index.specs.inner.Core.{machine_state};

use crate::agents::Agents;
use crate::locks::Locks;
use crate::queues::Queues;
use crate::request::{Request, Stage, is_taken};
use crate::requests::Requests;
use std::alloc::Global;
use wl_core::{PlainCore, PlainDraft};
use wl_machine::{AgentRow, HeldRow, PendingRow, SignalRow};
use wl_types::{Memory, Numbers};

fn add_agents(alloc: Global, draft: &mut PlainDraft, agents: &Agents) -> Result<(), Memory>
    ensures { OnOk result (draft.new ≡ record draft.old { agents = draft.old.agents ++ agents.now.rows.agents }) }
{
    for (number, agent) in agents.rows(alloc)? {
        draft.agent(AgentRow {
            number,
            kind: agent.kind,
            active: agent.active,
        })?;
    }
    Ok(())
}

fn add_signals(alloc: Global, draft: &mut PlainDraft, agents: &Agents) -> Result<(), Memory>
    ensures { OnOk result (draft.new ≡ record draft.old { signals = draft.old.signals ++ agents.now.rows.signals }) }
{
    for (number, signal) in agents.signals(alloc)? {
        draft.signal(SignalRow {
            agent: signal.agent,
            number,
            reason: signal.reason,
        })?;
    }
    Ok(())
}

fn add_names(alloc: Global, draft: &mut PlainDraft, queues: &Queues) -> Result<(), Memory>
    ensures { OnOk result (draft.new ≡ record draft.old { names = draft.old.names ++ names_of queues.now }) }
{
    for (_, queue) in queues.rows(alloc)? {
        draft.name(queue.name())?;
    }
    Ok(())
}

/// The lock of this number.
fn lock_of(alloc: Global, requests: &Requests, number: u64) -> Result<HeldRow, Memory>
    requires { IsSome (lookup (is_at (nat_cmp number)) requests.now.entries) }
    ensures { IfOk result (λ row. IfSome (lookup (is_at (nat_cmp number)) requests.now.entries)
        (λ r. row ≡ lock_row (number, r))) }
{
    let request = requests.get(number).unwrap();
    Ok(HeldRow {
        number,
        agent: request.agent,
        name: request.name.copy(alloc)?,
        mode: request.mode,
        signal: request.signal,
        taken: is_taken(request.stage),
    })
}

/// Adds the locks, whose numbers in the order of their grants are these.
fn add_locks(
    alloc: Global,
    draft: &mut PlainDraft,
    requests: &Requests,
    numbers: Vec<u64>,
) -> Result<(), Memory>
    requires ordered { IsStrictlySortedBy nat_cmp (keys_of requests.now.entries) }
    requires locks { numbers.items ≡ map (λ (lock : HeldRow). lock.number) (held_of requests.now.entries) }
    ensures { OnOk result (draft.new ≡ record draft.old { held = draft.old.held ++ held_of requests.now.entries }) }
{
    for number in numbers {
        draft.held(lock_of(alloc, requests, number)?)?;
    }
    Ok(())
}

/// Adds a request that waits. A lock is left out.
fn add_request(
    alloc: Global,
    draft: &mut PlainDraft,
    number: u64,
    request: &Request,
) -> Result<(), Memory>
    ensures { OnOk result (draft.new ≡ record draft.old {
      pending = draft.old.pending
          ++ pending_of ((number, request.now) ∷ []);
    }) }
{
    if let Stage::Held(_, _) = request.stage {
        return Ok(());
    }
    draft.pending(PendingRow {
        number,
        agent: request.agent,
        name: request.name.copy(alloc)?,
        mode: request.mode,
        signal: request.signal,
    })
}

fn add_requests(alloc: Global, draft: &mut PlainDraft, requests: &Requests) -> Result<(), Memory>
    ensures { OnOk result (draft.new ≡ record draft.old {
      pending = draft.old.pending
          ++ pending_of requests.now.entries;
    }) }
{
    for (number, request) in requests.rows(alloc)? {
        add_request(alloc, draft, number, request)?;
    }
    Ok(())
}

/// The numbers that a copy gives next.
fn next_numbers(agents: &Agents, locks: &Locks) -> Numbers
    ensures { result ≡ (machine_state agents.now.rows locks.now).next }
{
    Numbers {
        agent: agents.next_agent(),
        request: locks.requests().next(),
        signal: agents.next_signal(),
    }
}

/// Writes all rows in an empty draft.
fn write_rows(
    alloc: Global,
    mut draft: PlainDraft,
    agents: &Agents,
    locks: &Locks,
) -> Result<PlainCore, Memory>
    requires { draft ≡ opening (machine_state agents.now.rows locks.now).next }
    ensures state { IfOk result (λ copy. copy.state ≡ machine_state agents.now.rows locks.now) }
    ensures recent { IfOk result (λ copy. copy.recent ≡ []) }
{
    let requests = locks.requests();
    add_agents(alloc, &mut draft, agents)?;
    add_signals(alloc, &mut draft, agents)?;
    add_names(alloc, &mut draft, locks.queues())?;
    let in_order = requests.locks_in_order(alloc)?;
    add_locks(alloc, &mut draft, requests, in_order)?;
    add_requests(alloc, &mut draft, requests)?;
    draft.done()
}

/// A plain core of the same lists and next numbers.
pub(crate) fn plain_copy(alloc: Global, agents: &Agents, locks: &Locks) -> Result<PlainCore, Memory>
    ensures state { IfOk result (λ copy. copy.state ≡ machine_state agents.now.rows locks.now) }
    ensures recent { IfOk result (λ copy. copy.recent ≡ []) }
{
    let next = next_numbers(agents, locks);
    let draft = PlainDraft::new(alloc, next, locks.requests().len())?;
    write_rows(alloc, draft, agents, locks)
}

/// `plain_copy`, in the room of another plain core's lists.
pub(crate) fn plain_copy_in(
    alloc: Global,
    room: PlainCore,
    agents: &Agents,
    locks: &Locks,
) -> Result<PlainCore, Memory>
    ensures state { IfOk result (λ copy. copy.state ≡ machine_state agents.now.rows locks.now) }
    ensures recent { IfOk result (λ copy. copy.recent ≡ []) }
{
    let next = next_numbers(agents, locks);
    let draft = PlainDraft::in_room(room, next, locks.requests().len())?;
    write_rows(alloc, draft, agents, locks)
}
