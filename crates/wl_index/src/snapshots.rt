//! What is held and what waits, as a snapshot shows it.

ghost use Rattle.std.specs.Prelude.{◌≡◌, ◌++◌, map, IfOk, OnOk, IsSome, IfSome};
ghost use Rattle.std.specs.List.{flat_map, AllByRecursion};
ghost use Rattle.std.specs.List.Sorted.{IsStrictlySortedBy};
ghost use Rattle.std.specs.Map.{keys_of, lookup};
ghost use Rattle.std.specs.BTreeMap.{is_at};
ghost use Rattle.std.specs.Ordering.{nat_cmp};
ghost use Rattle.wl_machine.specs.declared.rows.HeldRow.{HeldRow};
ghost use Rattle.wl_machine.specs.Grants.{queue};
ghost use Rattle.wl_machine.specs.Step.{lock_info, request_info};
ghost use Rattle.wl_index.specs.inner.Rows.{held_of, pending_of};
ghost use Rattle.wl_index.specs.inner.NameQueue.{Matches};
ghost use Rattle.wl_index.specs.inner.Queues.{names_of};

use crate::locks::Locks;
use crate::queue::NameQueue;
use crate::queues::Queues;
use crate::requests::Requests;
use std::alloc::Global;
use wl_types::{Infos, LockInfo, Memory, Snapshot};

/// The request or the lock of this number.
fn info_of(alloc: Global, requests: &Requests, number: u64) -> Result<LockInfo, Memory>
    requires { IsSome (lookup (is_at (nat_cmp number)) requests.now.entries) }
    ensures { IfOk result (λ info. IfSome (lookup (is_at (nat_cmp number)) requests.now.entries)
        (λ r. info ≡ record { name = r.name; mode = r.mode; client = r.agent })) }
{
    let request = requests.get(number).unwrap();
    Ok(LockInfo {
        name: request.name.copy(alloc)?,
        mode: request.mode,
        client: request.agent,
    })
}

/// The locks, whose numbers in the order of their grants are these.
fn held_infos(alloc: Global, requests: &Requests, numbers: Vec<u64>) -> Result<Infos, Memory>
    requires ordered { IsStrictlySortedBy nat_cmp (keys_of requests.now.entries) }
    requires locks { numbers.items ≡ map (λ (lock : HeldRow). lock.number) (held_of requests.now.entries) }
    ensures { IfOk result (λ infos. infos ≡ map lock_info (held_of requests.now.entries)) }
{
    let mut infos = Infos::new(alloc);
    for number in numbers {
        infos.push(info_of(alloc, requests, number)?)?;
    }
    Ok(infos)
}

/// Adds one name's queue.
fn add_queue(
    alloc: Global,
    infos: &mut Infos,
    requests: &Requests,
    name_queue: &NameQueue,
) -> Result<(), Memory>
    requires ordered { IsStrictlySortedBy nat_cmp (keys_of requests.now.entries) }
    requires matched { Matches name_queue.now (held_of requests.now.entries) (pending_of requests.now.entries) }
    ensures { OnOk result (infos.new ≡ infos.old ++ map request_info
        (queue name_queue.now.name (pending_of requests.now.entries))) }
{
    for (number, _) in name_queue.waiters() {
        infos.push(info_of(alloc, requests, *number)?)?;
    }
    Ok(())
}

/// The queues, name by name.
fn pending_infos(alloc: Global, requests: &Requests, queues: &Queues) -> Result<Infos, Memory>
    requires ordered { IsStrictlySortedBy nat_cmp (keys_of requests.now.entries) }
    requires matched { AllByRecursion (λ e. Matches e.1 (held_of requests.now.entries)
        (pending_of requests.now.entries)) queues.now }
    ensures { IfOk result (λ infos. infos ≡ flat_map (λ name. map request_info
        (queue name (pending_of requests.now.entries))) (names_of queues.now)) }
{
    let mut infos = Infos::new(alloc);
    for (_, name_queue) in queues.rows(alloc)? {
        add_queue(alloc, &mut infos, requests, name_queue)?;
    }
    Ok(infos)
}

/// What is held and what waits.
pub(crate) fn make_snapshot(alloc: Global, locks: &Locks) -> Result<Snapshot, Memory>
    ensures held { IfOk result (λ seen. seen.held ≡ map lock_info (held_of locks.now.entries)) }
    ensures pending { IfOk result (λ seen. seen.pending ≡ flat_map
        (λ name. map request_info (queue name (pending_of locks.now.entries))) locks.now.names) }
{
    let requests = locks.requests();
    let in_order = requests.locks_in_order(alloc)?;
    Ok(Snapshot {
        held: held_infos(alloc, requests, in_order)?,
        pending: pending_infos(alloc, requests, locks.queues())?,
    })
}
