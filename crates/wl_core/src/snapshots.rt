//! What is held and what waits, as a snapshot shows it.
ghost use Rattle.std.specs.Prelude.{◌≡◌, ◌+◌, ◌<◌, ◌++◌, map, OnOk, IfOk};
ghost use Rattle.std.specs.List.{flat_map};
ghost use Rattle.wl_machine.specs.Grants.{queue};
ghost use Rattle.wl_machine.specs.Step.{lock_info, request_info};

use std::alloc::Global;
use wl_machine::{HeldRow, PendingRow};
use wl_types::{Infos, LockInfo, Memory, Name, Snapshot};

/// The locks, as a snapshot shows them.
pub(crate) fn held_infos(alloc: Global, held: &[HeldRow]) -> Result<Infos, Memory>
    ensures { IfOk result (λ infos. infos ≡ map lock_info held.now) }
{
    let mut infos = Infos::new(alloc);
    for lock in held {
        let name = lock.name.copy(alloc)?;
        infos.push(LockInfo {
            name,
            mode: lock.mode,
            client: lock.agent,
        })?;
    }
    Ok(infos)
}

/// Adds one name's queue, as a snapshot shows it.
pub(crate) fn add_queue(
    alloc: Global,
    infos: &mut Infos,
    pending: &[PendingRow],
    name: &Name,
) -> Result<(), Memory>
    ensures { OnOk result (infos.new ≡ infos.old ++ map request_info (queue name.now pending.now)) }
{
    for request in pending {
        if request.name.same(name) {
            let copy = request.name.copy(alloc)?;
            infos.push(LockInfo {
                name: copy,
                mode: request.mode,
                client: request.agent,
            })?;
        }
    }
    Ok(())
}

/// The queues, name by name, as a snapshot shows them.
pub(crate) fn pending_infos(
    alloc: Global,
    pending: &[PendingRow],
    names: &[Name],
) -> Result<Infos, Memory>
    ensures { IfOk result (λ infos. infos ≡ flat_map (λ name. map request_info (queue name pending.now)) names.now) }
{
    let mut infos = Infos::new(alloc);
    for name in names {
        add_queue(alloc, &mut infos, pending, name)?;
    }
    Ok(infos)
}

/// What is held and what waits.
pub(crate) fn make_snapshot(
    alloc: Global,
    held: &[HeldRow],
    pending: &[PendingRow],
    names: &[Name],
) -> Result<Snapshot, Memory>
    ensures held { IfOk result (λ seen. seen.held ≡ map lock_info held.now) }
    ensures pending { IfOk result (λ seen. seen.pending ≡ flat_map (λ name. map request_info (queue name pending.now))
        names.now) }
{
    Ok(Snapshot {
        held: held_infos(alloc, held)?,
        pending: pending_infos(alloc, pending, names)?,
    })
}
