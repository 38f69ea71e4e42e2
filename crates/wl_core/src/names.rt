//! The names in use.
ghost use Rattle.std.specs.Prelude.{◌≡◌, ◌<◌, filter, OnOk, OnErr, ◌||◌};
ghost use Rattle.std.specs.List.{list_any};
ghost use Rattle.std.specs.Str.{bytes_eq};
ghost use Rattle.wl_machine.specs.Grants.{in_use};
ghost use Rattle.wl_machine.specs.Step.{with_name};

use std::alloc::Global;
use wl_machine::{HeldRow, PendingRow};
use wl_types::{Memory, Name};

pub(crate) fn has_lock_of(held: &[HeldRow], name: &Name) -> bool
    ensures { result ≡ list_any (λ lock. bytes_eq lock.name name.now) held.now }
{
    held.iter().any(|lock| lock.name.same(name))
}

pub(crate) fn has_request_of(pending: &[PendingRow], name: &Name) -> bool
    ensures { result ≡ list_any (λ request. bytes_eq request.name name.now) pending.now }
{
    pending.iter().any(|request| request.name.same(name))
}

/// Whether a name has a lock or a request.
pub(crate) fn is_used(held: &[HeldRow], pending: &[PendingRow], name: &Name) -> bool
    ensures { result ≡ in_use held.now pending.now name.now }
{
    has_lock_of(held, name) || has_request_of(pending, name)
}

/// Removes the names that have neither lock nor request.
pub(crate) fn keep_used(names: &mut Vec<Name>, held: &[HeldRow], pending: &[PendingRow])
    ensures { names.new.items ≡ filter (in_use held.now pending.now) names.old.items }
{
    names.retain(|name| is_used(held, pending, name));
}

/// Whether a name is in the list.
pub(crate) fn has_name(names: &[Name], name: &Name) -> bool
    ensures { result ≡ list_any (λ other. bytes_eq other name.now) names.now }
{
    names.iter().any(|other| other.same(name))
}

/// Puts a name into the list, if it is not there.
pub(crate) fn add_name(alloc: Global, names: &mut Vec<Name>, name: &Name) -> Result<(), Memory>
    ensures ok { OnOk result (names.new.items ≡ with_name name.now names.old.items) }
    ensures err { OnErr result (names.new.items ≡ names.old.items) }
{
    if has_name(names, name) {
        return Ok(());
    }
    let copy = name.copy(alloc)?;
    names.push(copy)?;
    Ok(())
}
