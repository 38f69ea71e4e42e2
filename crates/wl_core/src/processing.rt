//! Processing the queues.

ghost use Rattle.std.specs.Prelude.{◌≡◌, ◌+◌, ◌≤◌, ◌<◌, ◌++◌, map, filter, take, length, vec_len, vec_capacity};
ghost use Rattle.wl_machine.specs.Grants.{locks, queue, grants, without_first, granted_lock, grant_change};
ghost use Rattle.wl_machine.specs.Grants.{process_queue, process_queues, lists_of, in_use};

use crate::names::keep_used;
use crate::queues::{has_exclusive, has_none};
use crate::room::push_in_room;
use wl_machine::{HeldRow, PendingRow, exclusive};
use wl_types::{Change, Name, Phase};

/// How many requests of a name are granted.
fn grant_count(held: &[HeldRow], pending: &[PendingRow], name: &Name) -> usize
    ensures { result ≡ length (grants (locks name.now held.now) (queue name.now pending.now)) }
{
    if has_exclusive(held, name) {
        return 0;
    }
    let free = has_none(held, name);
    let mut count = 0;
    for request in pending {
        if request.name.same(name) {
            if exclusive(request.mode) {
                if free && count == 0 {
                    return 1;
                }
                return count;
            }
            count += 1;
        }
    }
    count
}

/// The first requests of a name become locks.
fn move_first(
    held: &mut Vec<HeldRow>,
    pending: &mut Vec<PendingRow>,
    changes: &mut Vec<Change>,
    name: &Name,
    count: usize,
)
    requires held_room { vec_len held.old + vec_len pending.old ≤ vec_capacity held.old }
    requires changes_room { vec_len changes.old + vec_len pending.old ≤ vec_capacity changes.old }

    ensures held { held.new.items ≡ held.old.items ++ map granted_lock (take count (queue name.now pending.old.items)) }
    ensures pending { pending.new.items ≡ without_first name.now count pending.old.items }
    ensures changes { changes.new.items ≡ changes.old.items
        ++ map grant_change (take count (queue name.now pending.old.items)) }

    ensures held_len { vec_len held.new + vec_len pending.new ≡ vec_len held.old + vec_len pending.old }
    ensures changes_len { vec_len changes.new + vec_len pending.new ≡ vec_len changes.old + vec_len pending.old }
    ensures held_room { vec_capacity held.old ≤ vec_capacity held.new }
    ensures changes_room { vec_capacity changes.old ≤ vec_capacity changes.new }
{
    let mut left = count;
    let mut i = 0;
    while left > 0 && i < pending.len() {
        if pending[i].name.same(name) {
            let PendingRow {
                number,
                agent,
                name,
                mode,
                signal,
            } = pending.remove(i);
            push_in_room(
                changes,
                Change {
                    id: number,
                    phase: Phase::Granted,
                },
            );
            push_in_room(
                held,
                HeldRow {
                    number,
                    agent,
                    name,
                    mode,
                    signal,
                    taken: false,
                },
            );
            left -= 1;
        } else {
            i += 1;
        }
    }
}

/// Grants what one name's queue grants.
fn process_queue(
    held: &mut Vec<HeldRow>,
    pending: &mut Vec<PendingRow>,
    changes: &mut Vec<Change>,
    name: &Name,
)
    requires held_room { vec_len held.old + vec_len pending.old ≤ vec_capacity held.old }
    requires changes_room { vec_len changes.old + vec_len pending.old ≤ vec_capacity changes.old }

    ensures processed { lists_of held.new.items pending.new.items changes.new.items
        ≡ process_queue (lists_of held.old.items pending.old.items changes.old.items) name.now }

    ensures held_len { vec_len held.new + vec_len pending.new ≡ vec_len held.old + vec_len pending.old }
    ensures changes_len { vec_len changes.new + vec_len pending.new ≡ vec_len changes.old + vec_len pending.old }
    ensures held_room { vec_capacity held.old ≤ vec_capacity held.new }
    ensures changes_room { vec_capacity changes.old ≤ vec_capacity changes.new }
{
    let count = grant_count(held, pending, name);
    move_first(held, pending, changes, name, count);
}

/// Grants what the queues grant, name by name.
fn process_each(
    held: &mut Vec<HeldRow>,
    pending: &mut Vec<PendingRow>,
    changes: &mut Vec<Change>,
    names: &[Name],
)
    requires held_room { vec_len held.old + vec_len pending.old ≤ vec_capacity held.old }
    requires changes_room { vec_len changes.old + vec_len pending.old ≤ vec_capacity changes.old }

    ensures processed { lists_of held.new.items pending.new.items changes.new.items
        ≡ process_queues (lists_of held.old.items pending.old.items changes.old.items) names.now }

    ensures held_len { vec_len held.new + vec_len pending.new ≡ vec_len held.old + vec_len pending.old }
    ensures changes_len { vec_len changes.new + vec_len pending.new ≡ vec_len changes.old + vec_len pending.old }
    ensures held_room { vec_capacity held.old ≤ vec_capacity held.new }
    ensures changes_room { vec_capacity changes.old ≤ vec_capacity changes.new }
{
    for name in names {
        process_queue(held, pending, changes, name);
    }
}

/// Processes the queues, name by name, and removes the names that nobody uses any more.
pub(crate) fn process_queues(
    held: &mut Vec<HeldRow>,
    pending: &mut Vec<PendingRow>,
    changes: &mut Vec<Change>,
    names: &mut Vec<Name>,
)
    requires held_room { vec_len held.old + vec_len pending.old ≤ vec_capacity held.old }
    requires changes_room { vec_len changes.old + vec_len pending.old ≤ vec_capacity changes.old }

    ensures lists { lists_of held.new.items pending.new.items changes.new.items
        ≡ process_queues (lists_of held.old.items pending.old.items changes.old.items) names.old.items }
    ensures names { names.new.items ≡ filter (in_use held.new.items pending.new.items) names.old.items }

    ensures live { vec_len held.new + vec_len pending.new ≡ vec_len held.old + vec_len pending.old }
    ensures held_room { vec_capacity held.old ≤ vec_capacity held.new }
    ensures changes_room { vec_capacity changes.old ≤ vec_capacity changes.new }
{
    process_each(held, pending, changes, names);
    keep_used(names, held, pending);
}
