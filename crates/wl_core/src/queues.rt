//! A name's locks and queue, and how a request comes into the queue.

ghost use Rattle.std.specs.Prelude.{◌≡◌, ◌+◌, ◌≤◌, ◌<◌, [], ◌∷◌, ◌++◌, filter, not, ◌&&◌, vec_len, vec_capacity};
ghost use Rattle.std.specs.Prelude.{if◌then◌else◌};
ghost use Rattle.std.specs.Str.{bytes_eq};
ghost use Rattle.wl_types.specs.declared.phases.Phase.TheVariants.{Stolen};
ghost use Rattle.wl_machine.specs.Grants.{is_empty, any_exclusive, locks, queue, grants};
ghost use Rattle.wl_machine.specs.Step.{lock_ends};

use crate::ends::{LocksToEnd, end_locks};
use crate::room::{push_front_in_room, push_in_room};
use wl_machine::{HeldRow, PendingRow, exclusive};
use wl_types::{Ask, Change, Name, Phase};

/// Whether a name has an exclusive lock.
pub(crate) fn has_exclusive(held: &[HeldRow], name: &Name) -> bool
    ensures { result ≡ any_exclusive (locks name.now held.now) }
{
    for lock in held {
        if lock.name.same(name) && exclusive(lock.mode) {
            return true;
        }
    }
    false
}

/// Whether a name has no lock.
pub(crate) fn has_none(held: &[HeldRow], name: &Name) -> bool
    ensures { result ≡ is_empty (locks name.now held.now) }
{
    for lock in held {
        if lock.name.same(name) {
            return false;
        }
    }
    true
}

/// Whether a name has no request.
fn has_no_request(pending: &[PendingRow], name: &Name) -> bool
    ensures { result ≡ is_empty (queue name.now pending.now) }
{
    for request in pending {
        if request.name.same(name) {
            return false;
        }
    }
    true
}

/// Whether a request would be granted at once.
fn is_free(held: &[HeldRow], pending: &[PendingRow], row: &PendingRow) -> bool
    ensures { result ≡ (is_empty (queue row.now.name pending.now)
        && not (is_empty (grants (locks row.now.name held.now) (row.now ∷ [])))) }
{
    if !has_no_request(pending, &row.name) || has_exclusive(held, &row.name) {
        return false;
    }
    !exclusive(row.mode) || has_none(held, &row.name)
}

/// Whether a request is to be granted at once or not at all, and can't be granted.
pub(crate) fn is_unavailable(
    held: &[HeldRow],
    pending: &[PendingRow],
    row: &PendingRow,
    ask: &Ask,
) -> bool
    ensures { result ≡ (not ask.now.steal && ask.now.if_available
        && not (is_empty (queue row.now.name pending.now) && not
        (is_empty (grants (locks row.now.name held.now) (row.now ∷ []))))) }
{
    !ask.steal && ask.if_available && !is_free(held, pending, row)
}

/// A request comes to the end of its queue; one that steals ends the locks of its name and comes to the front.
pub(crate) fn enqueue(
    held: &mut Vec<HeldRow>,
    pending: &mut Vec<PendingRow>,
    changes: &mut Vec<Change>,
    row: PendingRow,
    steal: bool,
)
    requires pending_room { vec_len pending.old < vec_capacity pending.old }
    requires changes_room { vec_len changes.old + vec_len held.old ≤ vec_capacity changes.old }

    ensures held { held.new.items ≡ (if steal then filter (λ lock. not (bytes_eq lock.name row.name)) held.old.items
        else held.old.items) }
    ensures pending { pending.new.items ≡ (if steal then row ∷ pending.old.items else pending.old.items ++ row ∷ []) }
    ensures changes { changes.new.items ≡ (if steal then changes.old.items
        ++ lock_ends Stolen (locks row.name held.old.items) else changes.old.items) }

    ensures pending_len { vec_len pending.new ≡ vec_len pending.old + 1 }
    ensures changes_len { vec_len changes.new + vec_len held.new ≡ vec_len changes.old + vec_len held.old }
    ensures held_room { vec_capacity held.new ≡ vec_capacity held.old }
    ensures changes_room { vec_capacity changes.old ≤ vec_capacity changes.new }
{
    if steal {
        let locks = LocksToEnd::Named(&row.name);
        end_locks(held, changes, &locks, Phase::Stolen);
        push_front_in_room(pending, row);
    } else {
        push_in_room(pending, row);
    }
}
