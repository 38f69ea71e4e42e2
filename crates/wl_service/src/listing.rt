//! What a service lists of its locks.

ghost use Rattle.std.specs.Prelude.{◌≡◌};
ghost use Rattle.std.specs.Option.{option_copied};
ghost use Rattle.wl_service.specs.Listing.{is_asked};

use wl_manager::LockList;
use wl_origin::{ManagerKey, OriginKey};

/// The locks of one manager.
#[derive(Debug, Drop)]
pub struct ManagerLocks {
    pub key: ManagerKey,
    pub locks: LockList,
}

/// The locks of a service.
#[derive(Debug, Drop)]
pub struct ServiceLocks {
    /// In the order of their keys. Each was looked at by itself, so they aren't of one moment.
    pub managers: Vec<ManagerLocks>,
    /// How many managers that were asked for aren't listed, since there is no room for them.
    pub left_out_managers: u64,
    /// How many rows those have.
    pub left_out_rows: u64,
}

/// Whether a manager's locks are asked for: each manager's, or those of one origin's.
pub(crate) fn is_asked(only: Option<&OriginKey>, key: &ManagerKey) -> bool
    ensures { result ≡ is_asked (option_copied only.entry) key.now }
{
    match only {
        Some(origin) => *origin == key.origin,
        None => true,
    }
}
