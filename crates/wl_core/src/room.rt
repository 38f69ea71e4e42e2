//! Room in the lists for what is to come.
ghost use Rattle.std.specs.Prelude.{◌≡◌, ◌+◌, ◌≤◌, ◌<◌, [], ◌∷◌, ◌++◌, vec_len, vec_capacity, OnErr, OnOk};

use std::alloc::{AllocError, Global};
use wl_machine::{HeldRow, PendingRow};
use wl_types::{Change, Memory};

/// So many values any list may have room for, and so many times what it needs.
const FEW: usize = 128;

const FAR_MORE: usize = 8;

/// Drops the values, and keeps their room, so that a list that is filled again and again takes no new blocks. Room for
/// far more than `needed` values is given back. `Memory`, with the list as it was.
pub fn clear_list<T: Drop>(alloc: Global, needed: usize, items: &mut Vec<T>) -> Result<(), Memory>
    requires { needed ≤ vec_capacity items.old }
    ensures items { OnOk result (items.new.items ≡ []) }
    ensures room { OnOk result (needed ≤ vec_capacity items.new) }
    ensures unchanged { OnErr result (items.new ≡ items.old) }
{
    if items.capacity() / FAR_MORE > needed.max(FEW) {
        *items = Vec::with_capacity(alloc, needed)?;
    } else {
        items.clear();
    }
    Ok(())
}

/// Puts a value into room that was made before, where an event may no longer fail.
pub fn push_in_room<T: Drop>(items: &mut Vec<T>, item: T)
    requires { vec_len items.old < vec_capacity items.old }
    ensures items { items.new.items ≡ items.old.items ++ item ∷ [] }
    ensures len { vec_len items.new ≡ vec_len items.old + 1 }
    ensures capacity { vec_capacity items.old ≤ vec_capacity items.new }
{
    items.push(item).unwrap();
}

/// Puts a request in front, into room that is there.
pub(crate) fn push_front_in_room(pending: &mut Vec<PendingRow>, row: PendingRow)
    requires { vec_len pending.old < vec_capacity pending.old }
    ensures items { pending.new.items ≡ row ∷ pending.old.items }
    ensures len { vec_len pending.new ≡ vec_len pending.old + 1 }
{
    pending.insert(0, row).unwrap();
}

/// Makes room for one more live request.
pub(crate) fn make_room(
    held: &mut Vec<HeldRow>,
    pending: &mut Vec<PendingRow>,
    changes: &mut Vec<Change>,
) -> Result<(), AllocError>
    requires few { vec_len held.old + vec_len pending.old < 65536 }
    requires none { changes.old.items ≡ [] }

    ensures held { held.new.items ≡ held.old.items }
    ensures pending { pending.new.items ≡ pending.old.items }
    ensures changes { changes.new.items ≡ changes.old.items }
    ensures held_len { vec_len held.new ≡ vec_len held.old }
    ensures pending_len { vec_len pending.new ≡ vec_len pending.old }
    ensures changes_len { vec_len changes.new ≡ vec_len changes.old }
    ensures held_room { vec_capacity held.old ≤ vec_capacity held.new }
    ensures changes_room { vec_capacity changes.old ≤ vec_capacity changes.new }
    ensures held_more { OnOk result (vec_len held.new + (vec_len pending.new + 1) ≤ vec_capacity held.new) }
    ensures pending_more { OnOk result (vec_len pending.new < vec_capacity pending.new) }
    ensures changes_more { OnOk result (vec_len held.new + (vec_len pending.new + 1) ≤ vec_capacity changes.new) }
{
    let live = held.len() + pending.len();
    held.reserve(pending.len() + 1)?;
    changes.reserve(live + 1)?;
    pending.reserve(1)?;
    Ok(())
}
