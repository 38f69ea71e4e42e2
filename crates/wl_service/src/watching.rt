//! Looking at all locks of a service.

ghost use Rattle.std.specs.Prelude.{◌≡◌, ◌≤◌, None, IfOk, IfSome};
ghost use Rattle.std.specs.Option.{option_copied};
ghost use Rattle.wl_service.specs.Listing.{IsListing, MayFollow};

use crate::directory::Shared;
use crate::listing::{ManagerLocks, ServiceLocks};
use crate::service::Service;
use std::sync::Wait;
use wl_origin::{ManagerKey, OriginKey};
use wl_types::Memory;

/// The managers that are listed at most.
const MOST_MANAGERS: u64 = 10_000;

/// The rows of one manager at most.
const MOST_OF_ONE: usize = 1_000;

/// The rows of all managers at most, unless an origin is named.
const MOST_ROWS: usize = 10_000;

/// How much room these rows take up: none where an origin is named.
fn room_of(only: Option<&OriginKey>, rows: usize) -> usize
    ensures counted { option_copied only.entry ≡ None → result ≡ rows }
    ensures few { result ≤ rows }
{
    match only {
        None => rows,
        Some(_) => 0,
    }
}

impl Service {
    /// What is held and what waits, manager after manager, of all or of one origin's: at most 10,000 managers, 1,000
    /// rows of each, and 10,000 in all unless an origin is named. `now` is a time of the service's clock.
    ///
    /// Each manager is looked at under its own lock, while the directory's is free. One that loses its last client
    /// meanwhile is dropped afterwards.
    pub fn list_locks<R: Wait>(
        &self,
        rt: &R,
        only: Option<&OriginKey>,
        now: u64,
    ) -> Result<ServiceLocks, Memory>
        ensures { IfOk result (IsListing (option_copied only.entry)) }
    {
        let mut managers = Vec::new(self.alloc);
        let mut after: Option<ManagerKey> = None;
        let mut room = MOST_ROWS;
        for taken in 0..MOST_MANAGERS {
            if room == 0 {
                break;
            }
            let Some((key, manager)) = self.next_manager(rt, after.as_ref(), only)? else {
                break;
            };
            let listed = manager.list_locks(rt, room.min(MOST_OF_ONE), now);
            drop(manager);
            self.drop_unused(rt, &key);
            let locks = listed?;
            let used = room_of(only, locks.held.len() + locks.pending.len());
            room -= used;
            after = Some(key.copy(self.alloc)?);
            managers.push(ManagerLocks { key, locks })?;
        }
        let left_out_managers = self.directory.lock(rt).count_left(after.as_ref(), only);
        let left_out_rows = self.count_rows_behind(rt, after, only, now)?;
        Ok(ServiceLocks {
            managers,
            left_out_managers,
            left_out_rows,
        })
    }

    /// How many rows the managers behind this key have. Each is looked at as a listed one is.
    fn count_rows_behind<R: Wait>(
        &self,
        rt: &R,
        after: Option<ManagerKey>,
        only: Option<&OriginKey>,
        now: u64,
    ) -> Result<u64, Memory> {
        let mut rows: u64 = 0;
        let mut last = after;
        for _ in 0..u64::MAX {
            let Some((key, manager)) = self.next_manager(rt, last.as_ref(), only)? else {
                break;
            };
            let listed = manager.list_locks(rt, 0, now);
            drop(manager);
            self.drop_unused(rt, &key);
            rows = rows.saturating_add(listed?.left_out);
            last = Some(key);
        }
        Ok(rows)
    }

    /// The next manager to be listed behind this key, with its own.
    fn next_manager<R: Wait>(
        &self,
        rt: &R,
        after: Option<&ManagerKey>,
        only: Option<&OriginKey>,
    ) -> Result<Option<(ManagerKey, Shared)>, Memory>
        ensures { IfOk result (λ found. IfSome found (λ one. MayFollow (option_copied after.entry)
            (option_copied only.entry) one.0)) }
    {
        self.directory.lock(rt).next(self.alloc, after, only)
    }
}
