//! How many entries there are once all agents have left.

ghost use Rattle.std.specs.Prelude.{◌≡◌, ◌+◌, ◌-◌, ◌<◌, ◌≤◌, ◌^◌, length, min, true, IfOk, IfErr, OnOk};

use crate::count::Count;
use crate::locked::Locked;
use wl_core::LockCore;

/// What an agent that ended leaves: its share. A manager's tally takes it in.
#[derive(Drop)]
pub struct Leaving<T: Count> {
    pub(crate) share: T::Share,
    ghost one: { T.COUNTS ≡ true → T.parts share ≡ 1 },
}

/// Why a tally gives no number.
#[derive(Drop)]
pub enum TallyFault<T: Count> {
    /// Fewer agents have left than opened. The Leavings are handed back.
    Missing(Vec<Leaving<T>>),
}

impl<C: LockCore, T: Count> Locked<C, T> {
    /// The number of entries, where at least as many Leavings were handed in, here and in tallies that succeeded, as
    /// agents opened. Where shares are counted, the manager's share is then the whole, so every agent that ever
    /// opened has left, and what all agents' shares had adds up to this number.
    pub fn tally(&mut self, leavings: Vec<Leaving<T>>) -> Result<u64, TallyFault<T>>
        ensures total { IfOk result (λ n. n ≡ self.new.book.total) }
        ensures left { OnOk result (self.old.opened ≤ self.old.handed + length leavings.items) }
        ensures all { OnOk result (T.COUNTS ≡ true → (self.new.parts ≡ T.all)
            × (self.new.amount ≡ self.new.book.total)) }
        ensures same { (self.new.book ≡ self.old.book) × (self.new.kept ≡ self.old.kept)
            × (self.new.next ≡ self.old.next) × (self.new.opened ≡ self.old.opened) }
        ensures missing { IfErr result (λ fault. (fault ≡ TallyFault.Missing leavings) × (self.new ≡ self.old)
            × (self.old.handed + length leavings.items < self.old.opened)) }
    {
        let opened = self.opened;
        if self.handed.saturating_add(leavings.len() as u64) < opened {
            return Err(TallyFault::Missing(leavings));
        }
        let mut leavings = leavings;
        while let Some(leaving) = leavings.pop() {
            self.take_in(leaving);
        }
        T::audit(&mut self.total, &mut self.share);
        Ok(self.book.total())
    }

    // Takes in what an agent left. The count stays at its greatest value.
    fn take_in(&mut self, leaving: Leaving<T>)
        ensures handed { self.new.handed ≡ min (self.old.handed + 1) (2 ^ 64 - 1) }
        ensures same { (self.new.book ≡ self.old.book) × (self.new.kept ≡ self.old.kept)
            × (self.new.next ≡ self.old.next) × (self.new.opened ≡ self.old.opened) }
    {
        let Leaving { share } = leaving;
        T::merge(&mut self.share, share);
        self.handed = self.handed.saturating_add(1);
    }
}
