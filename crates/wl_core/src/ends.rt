//! What an event takes or ends.
ghost use Rattle.std.specs.Prelude.{◌≡◌, ◌+◌, ◌≤◌, ◌<◌, [], ◌∷◌, ◌++◌, map, filter, not, vec_len, vec_capacity, ◌==◌};
ghost use Rattle.std.specs.Prelude.{◌&&◌, Some};
ghost use Rattle.std.specs.List.{list_any, slice_get};
ghost use Rattle.std.specs.Option.{option_to_list};
ghost use Rattle.wl_machine.specs.Least.{IsLeast, above};
ghost use Rattle.wl_machine.specs.Step.{is_lock_of, lock_ends, with_taken, is_untaken, is_signal, request_ends};
ghost use Rattle.wl_machine.specs.Step.{is_abortable};
ghost use Rattle.wl_core.specs.inner.Ends.{selects_lock, selects_request};

use crate::room::push_in_room;
use wl_machine::{HeldRow, PendingRow};
use wl_types::{Change, Name, Phase};

/// Which locks an event ends.
#[derive(Drop)]
pub(crate) enum LocksToEnd<'a> {
    /// The agent's lock of this number.
    Number(u64, u64),
    /// The locks of a name.
    Named(&'a Name),
    /// The agent's untaken locks with this signal.
    Signal(u64, u64),
    /// The agent's locks.
    Agent(u64),
}

/// Which requests an event ends.
#[derive(Drop)]
pub(crate) enum RequestsToEnd {
    /// The agent's requests with this signal.
    Signal(u64, u64),
    /// The agent's requests.
    Agent(u64),
}

pub(crate) fn has_signal_number(signal: Option<u64>, number: u64) -> bool
    ensures { result ≡ is_signal number signal }
{
    match signal {
        Some(other) => other == number,
        None => false,
    }
}

/// Whether an abort of the agent's signal ends the lock.
pub(crate) fn is_abortable_lock(lock: &HeldRow, agent: u64, signal: u64) -> bool
    ensures { result ≡ is_abortable agent signal lock.now }
{
    lock.agent == agent && has_signal_number(lock.signal, signal) && !lock.taken
}

pub(crate) fn is_ended_lock(test: &LocksToEnd, lock: &HeldRow) -> bool
    ensures { result ≡ selects_lock test.now lock.now }
{
    match test {
        LocksToEnd::Number(agent, id) => lock.number == *id && lock.agent == *agent,
        LocksToEnd::Named(name) => lock.name.same(name),
        LocksToEnd::Signal(agent, signal) => is_abortable_lock(lock, *agent, *signal),
        LocksToEnd::Agent(agent) => lock.agent == *agent,
    }
}

pub(crate) fn is_ended_request(test: &RequestsToEnd, request: &PendingRow) -> bool
    ensures { result ≡ selects_request test.now request.now }
{
    match test {
        RequestsToEnd::Signal(agent, signal) => request.agent == *agent
            && has_signal_number(request.signal, *signal),
        RequestsToEnd::Agent(agent) => request.agent == *agent,
    }
}

/// Ends locks.
pub(crate) fn end_locks(
    held: &mut Vec<HeldRow>,
    changes: &mut Vec<Change>,
    test: &LocksToEnd,
    phase: Phase,
)
    requires room { vec_len changes.old + vec_len held.old ≤ vec_capacity changes.old }
    ensures held { held.new.items ≡ filter (λ lock. not (selects_lock test.now lock)) held.old.items }
    ensures changes { changes.new.items ≡ changes.old.items
        ++ lock_ends phase (filter (selects_lock test.now) held.old.items) }
    ensures len { vec_len changes.new + vec_len held.new ≡ vec_len changes.old + vec_len held.old }
    ensures fewer { vec_len held.new ≤ vec_len held.old }
    ensures held_room { vec_capacity held.new ≡ vec_capacity held.old }
    ensures changes_room { vec_capacity changes.old ≤ vec_capacity changes.new }
{
    for lock in held.iter() {
        if is_ended_lock(test, lock) {
            push_in_room(
                changes,
                Change {
                    id: lock.number,
                    phase,
                },
            );
        }
    }
    held.retain(|lock| !is_ended_lock(test, lock));
}

/// Ends requests.
pub(crate) fn end_requests(
    pending: &mut Vec<PendingRow>,
    changes: &mut Vec<Change>,
    test: &RequestsToEnd,
    phase: Phase,
)
    requires room { vec_len changes.old + vec_len pending.old ≤ vec_capacity changes.old }
    ensures pending { pending.new.items ≡ filter (λ request. not (selects_request test.now request)) pending.old.items }
    ensures changes { changes.new.items ≡ changes.old.items
        ++ request_ends phase (filter (selects_request test.now) pending.old.items) }
    ensures len { vec_len changes.new + vec_len pending.new ≡ vec_len changes.old + vec_len pending.old }
    ensures fewer { vec_len pending.new ≤ vec_len pending.old }
    ensures changes_room { vec_capacity changes.old ≤ vec_capacity changes.new }
{
    for request in pending.iter() {
        if is_ended_request(test, request) {
            push_in_room(
                changes,
                Change {
                    id: request.number,
                    phase,
                },
            );
        }
    }
    pending.retain(|request| !is_ended_request(test, request));
}

/// Whether an agent has the lock of this number.
pub(crate) fn has_lock(held: &[HeldRow], agent: u64, id: u64) -> bool
    ensures { result ≡ list_any (is_lock_of agent id) held.now }
{
    held.iter()
        .any(|lock| lock.number == id && lock.agent == agent)
}

/// Whether a lock is of this number and untaken.
pub(crate) fn is_untaken_lock(lock: &HeldRow, id: u64) -> bool
    ensures { result ≡ is_untaken id lock.now }
{
    lock.number == id && !lock.taken
}

/// Whether there is an untaken lock of this number.
pub(crate) fn has_untaken(held: &[HeldRow], id: u64) -> bool
    ensures { result ≡ list_any (is_untaken id) held.now }
{
    held.iter().any(|lock| is_untaken_lock(lock, id))
}

/// Sets the flag of the lock of this number.
pub(crate) fn take_lock(held: &mut Vec<HeldRow>, id: u64)
    ensures held { held.new.items ≡ map (with_taken id) held.old.items }
    ensures len { vec_len held.new ≡ vec_len held.old }
    ensures room { vec_capacity held.new ≡ vec_capacity held.old }
{
    for lock in held.iter_mut() {
        if lock.number == id {
            lock.taken = true;
        }
    }
}

/// The number at a place among the agent's untaken locks with a signal.
pub(crate) fn nth_untaken(held: &[HeldRow], agent: u64, signal: u64, i: u64) -> Option<u64>
    ensures { result ≡ slice_get (map (λ lock. lock.number) (filter (is_abortable agent signal) held.now)) i }
{
    let mut left = i;
    for lock in held {
        if is_abortable_lock(lock, agent, signal) {
            if left == 0 {
                return Some(lock.number);
            }
            left -= 1;
        }
    }
    None
}

/// The least number above `after` among the agent's untaken locks with a signal.
pub(crate) fn least_untaken(held: &[HeldRow], agent: u64, signal: u64, after: u64) -> Option<u64>
    ensures { IsLeast (above after (map (λ lock. lock.number) (filter (is_abortable agent signal) held.now))) result }
{
    let mut least = None;
    for lock in held {
        if is_abortable_lock(lock, agent, signal) && lock.number > after {
            least = Some(lower(least, lock.number));
        }
    }
    least
}

/// The lower of a number and one found before, if there is one.
fn lower(found: Option<u64>, number: u64) -> u64
    ensures { IsLeast (option_to_list found ++ number ∷ []) (Some result) }
{
    match found {
        Some(other) => { if other < number { other } else { number } }
        None => number,
    }
}
