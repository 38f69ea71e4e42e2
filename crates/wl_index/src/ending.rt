//! What an abort or a termination ends.
ghost use Rattle.std.specs.Prelude.{◌≡◌, ◌+◌, ◌≤◌, [], ◌++◌, filter, length, vec_capacity};
ghost use Rattle.std.specs.List.Sorted.{IsStrictlySortedBy};
ghost use Rattle.std.specs.Ordering.{nat_cmp};
ghost use Rattle.wl_machine.specs.Step.{request_ends, lock_ends};
ghost use Rattle.wl_index.specs.declared.request.Standing.TheVariants.{Waits, Holds};
ghost use Rattle.wl_index.specs.declared.request.Place.{Place};
ghost use Rattle.wl_index.specs.inner.Ends.{IsOwners, ends_request, ends_lock, place_ends, numbers_of};
ghost use Rattle.wl_index.specs.inner.Ends.{without_ends, AreLive};
ghost use Rattle.wl_index.specs.inner.Lists.{is_spared};
ghost use Rattle.wl_index.specs.inner.Rows.{held_of, pending_of};

use crate::locks::Locks;
use crate::order::sort;
use crate::request::{Owner, Place, Standing};
use wl_types::Phase;

/// Whose requests and locks end, and how.
#[derive(Clone, Copy, Drop)]
pub(crate) struct Ending {
    pub owner: Owner,
    pub waiting: Phase,
    pub held: Phase,
}

/// These requests and locks end, in this order.
fn end_all(locks: &mut Locks, places: &[Place], phase: Phase)
    requires { AreLive (numbers_of places.now) locks.old.entries }
    ensures { locks.new ≡ record locks.old {
      entries = filter (is_spared (numbers_of places.now)) locks.old.entries;
      changes = locks.old.changes ++ place_ends phase places.now;
    } }
{
    for place in places {
        locks.end(place.number, phase);
    }
}

/// The owner's requests that wait end, in the order of their numbers. These numbers find them.
fn end_requests(locks: &mut Locks, numbers: &[u64], ending: Ending, places: &mut Vec<Place>)
    requires finds { IsStrictlySortedBy nat_cmp numbers.now × IsOwners ending.owner locks.old.entries numbers.now }
    requires none { places.old.items ≡ [] }
    requires room { length locks.old.entries ≤ vec_capacity places.old }
    ensures ended { locks.new ≡ record locks.old {
      entries = without_ends ending.owner Waits locks.old.entries;
      changes = locks.old.changes ++ request_ends ending.waiting
          (filter (ends_request ending.owner) (pending_of locks.old.entries));
    } }
    ensures emptied { places.new.items ≡ [] }
    ensures capacity { vec_capacity places.old ≤ vec_capacity places.new }
{
    locks
        .requests()
        .gather(numbers, ending.owner, Standing::Waits, places);
    end_all(locks, places, ending.waiting);
    places.clear();
}

/// The owner's locks end, in the order of their grants. These numbers find them.
fn end_locks(locks: &mut Locks, numbers: &[u64], ending: Ending, places: &mut Vec<Place>)
    requires finds { IsStrictlySortedBy nat_cmp numbers.now × IsOwners ending.owner locks.old.entries numbers.now }
    requires none { places.old.items ≡ [] }
    requires room { length locks.old.entries ≤ vec_capacity places.old }
    ensures ended { locks.new ≡ record locks.old {
      entries = without_ends ending.owner Holds locks.old.entries;
      changes = locks.old.changes ++ lock_ends ending.held
          (filter (ends_lock ending.owner) (held_of locks.old.entries));
    } }
    ensures emptied { places.new.items ≡ [] }
    ensures capacity { vec_capacity places.old ≤ vec_capacity places.new }
{
    locks
        .requests()
        .gather(numbers, ending.owner, Standing::Holds, places);
    sort(places);
    end_all(locks, places, ending.held);
    places.clear();
}

/// What an owner has ends: its requests, in order, and then its locks, in the order of their grants. These numbers find
/// it.
pub(crate) fn end_owned(locks: &mut Locks, numbers: &[u64], ending: Ending, places: &mut Vec<Place>)
    requires finds { IsStrictlySortedBy nat_cmp numbers.now × IsOwners ending.owner locks.old.entries numbers.now }
    requires none { places.old.items ≡ [] }
    requires room { length locks.old.entries ≤ vec_capacity places.old }
    ensures ended { locks.new ≡ record locks.old {
      entries =
          without_ends ending.owner Holds (without_ends ending.owner Waits locks.old.entries);
      changes = (locks.old.changes ++ request_ends ending.waiting
          (filter (ends_request ending.owner) (pending_of locks.old.entries)))
          ++ lock_ends ending.held (filter (ends_lock ending.owner) (held_of locks.old.entries));
    } }
    ensures emptied { places.new.items ≡ [] }
    ensures capacity { vec_capacity places.old ≤ vec_capacity places.new }
{
    end_requests(locks, numbers, ending, places);
    end_locks(locks, numbers, ending, places);
}
