//! What is listed of the locks.

ghost use Rattle.std.specs.Prelude.{◌≡◌, ◌+◌, ◌≤◌, length, map, IfOk};
ghost use Rattle.wl_manager.specs.Listing.{Lists, MayList, as_listed, of_lock, of_request};

use crate::count::Count;
use crate::keepers::Keepers;
use crate::lock_list::{LockList, LockRow};
use crate::locked::Locked;
use std::alloc::Global;
use wl_core::{LockCore, PlainCore};
use wl_machine::{HeldRow, PendingRow};
use wl_types::Memory;

impl<C: LockCore, T: Count> Locked<C, T> {
    /// At most so many rows of what is held and what waits, locks first. The time is one of the clock that this was
    /// made with. The list comes with the copy of the state that it is made from, so that this can be dropped without
    /// the lock: like a cut of the journal it takes a step for each agent, signal and request.
    pub fn list_locks(&self, most: usize, now: u64) -> Result<(LockList, PlainCore), Memory>
        ensures lists { IfOk result (λ as_listed. Lists self.now.book.state most as_listed.0) }
        ensures may { IfOk result (λ as_listed. MayList most as_listed.0) }
        ensures few { IfOk result (λ as_listed. length as_listed.0.held.items + length as_listed.0.pending.items
            ≤ most) }
    {
        let copy = self.book.copy_plain()?;
        let held = copy.held();
        let pending = copy.pending();
        let locks = most.min(held.len());
        let requests = (most - locks).min(pending.len());
        let left_out = (held.len() - locks) as u64 + (pending.len() - requests) as u64;
        let list = LockList {
            held: list_held(self.alloc, &self.keepers, &held[..locks], now)?,
            pending: list_pending(self.alloc, &self.keepers, &pending[..requests], now)?,
            left_out,
        };
        Ok((list, copy))
    }
}

/// The rows of these locks.
fn list_held(
    alloc: Global,
    keepers: &Keepers,
    held: &[HeldRow],
    now: u64,
) -> Result<Vec<LockRow>, Memory>
    ensures { IfOk result (λ rows. map as_listed rows.items ≡ map of_lock held.now) }
{
    let mut rows = Vec::with_capacity(alloc, held.len())?;
    for lock in held {
        let times = keepers.times(lock.number);
        let name = lock.name.copy(alloc)?;
        rows.push(LockRow {
            client: lock.agent,
            request: lock.number,
            name,
            mode: lock.mode,
            since_asked: now.saturating_sub(times.asked),
            since_granted: Some(now.saturating_sub(times.granted)),
        })?;
    }
    Ok(rows)
}

/// The rows of these requests, which wait.
fn list_pending(
    alloc: Global,
    keepers: &Keepers,
    pending: &[PendingRow],
    now: u64,
) -> Result<Vec<LockRow>, Memory>
    ensures { IfOk result (λ rows. map as_listed rows.items ≡ map of_request pending.now) }
{
    let mut rows = Vec::with_capacity(alloc, pending.len())?;
    for request in pending {
        let times = keepers.times(request.number);
        let name = request.name.copy(alloc)?;
        rows.push(LockRow {
            client: request.agent,
            request: request.number,
            name,
            mode: request.mode,
            since_asked: now.saturating_sub(times.asked),
            since_granted: None,
        })?;
    }
    Ok(rows)
}
