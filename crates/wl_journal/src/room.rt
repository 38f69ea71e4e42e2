//! How many entries may still come without a growth, and room for them.

ghost use Rattle.std.specs.Prelude.{◌≡◌, ◌+◌, ◌≤◌, ◌<◌, ◌^◌, vec_len, vec_capacity, IfErr, OnOk};
ghost use Rattle.std.specs.List.{sum_by};
ghost use Rattle.wl_journal.specs.inner.Room.{entries_owed, lock_entries, signal_entries};

use crate::entry::Entry;
use wl_core::{HeldRow, PlainCore, SignalRow};
use wl_types::Refusal;

/// Makes room for this many more entries.
pub(crate) fn make_room(entries: &mut Vec<Entry>, more: usize) -> Result<(), Refusal>
    ensures items { entries.new.items ≡ entries.old.items }
    ensures len { vec_len entries.new ≡ vec_len entries.old }
    ensures kept { vec_capacity entries.old ≤ vec_capacity entries.new }
    ensures room { OnOk result (vec_len entries.new + more ≤ vec_capacity entries.new) }
    ensures refused { IfErr result (λ r. r ≡ Refusal.Memory) }
{
    match entries.reserve(more) {
        Ok(_) => Ok(()),
        Err(_) => Err(Refusal::Memory),
    }
}

#[tactic(auto, using(std::proofs::lemmas::List::Sums::sum_by_more_le))]
fn count_locks(held: &[HeldRow]) -> usize
    requires { sum_by lock_entries held.now < 2 ^ 64 }
    ensures { result ≡ sum_by lock_entries held.now }
{
    let mut count = 0;
    for lock in held {
        count += if lock.taken { 1 } else { 2 };
    }
    count
}

#[tactic(auto, using(std::proofs::lemmas::List::Sums::sum_by_more_le))]
fn count_signals(signals: &[SignalRow]) -> usize
    requires { sum_by signal_entries signals.now < 2 ^ 64 }
    ensures { result ≡ sum_by signal_entries signals.now }
{
    let mut count = 0;
    for row in signals {
        count += if row.reason.is_some() { 0 } else { 1 };
    }
    count
}

/// How many entries the end of each live request, signal and agent needs.
pub(crate) fn count_owed(plain: &PlainCore) -> usize
    requires { entries_owed plain.now.state < 2 ^ 64 }
    ensures { result ≡ entries_owed plain.now.state }
{
    plain.agents().len()
        + count_signals(plain.signals())
        + count_locks(plain.held())
        + 2 * plain.pending().len()
}
