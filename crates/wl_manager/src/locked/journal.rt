//! The journal under the lock: what is shown of it, and its cut.

ghost use Rattle.std.specs.Prelude.{◌≡◌, ◌^◌, ◌-◌, min, true, false};
ghost use Rattle.wl_journal.specs.Books.{cut_off};
ghost use Rattle.wl_journal.specs.History.{IsLegal};
ghost use Rattle.wl_manager.specs.Locked.{WasCut, first};
ghost use Rattle.wl_manager.specs.inner.Locked.{rows_of};

use crate::count::Count;
use crate::locked::Locked;
use wl_core::{LockCore, PlainCore};
use wl_journal::Entry;
use wl_types::Change;

/// The entries that a journal may have before it is cut.
const FEW: usize = 128;

impl<C: LockCore, T: Count> Locked<C, T> {
    /// Whether no entry was cut.
    pub fn is_whole(&self) -> bool
        ensures whole { result ≡ true → IsLegal first self.now.book.entries }
        ensures kept { T.KEEPS_ALL ≡ true → result ≡ true }
    {
        self.book.total() == self.book.entries().len() as u64
    }

    /// The entries since the last cut: where all are kept, since the opening state.
    pub fn entries(&self) -> &[Entry]
        ensures entries { result.now ≡ self.now.book.entries }
        ensures legal { T.KEEPS_ALL ≡ true → IsLegal first result.now }
        ensures since { IsLegal self.now.book.base result.now }
        ensures cut { WasCut self.now.book.base result.now }
    {
        self.book.entries()
    }

    /// A core of the state before these entries.
    pub fn base(&self) -> &PlainCore
        ensures { result.now.state ≡ self.now.book.base }
    {
        self.book.base()
    }

    /// What the last command changed, ends before grants.
    pub fn changes(&self) -> &[Change]
        ensures { result.now ≡ self.now.book.recent }
    {
        self.book.changes()
    }

    /// Cuts the journal where it has outgrown what is live, unless all entries are kept: once it has more than 128
    /// entries, and more than two for each agent, signal and request of its base. So a cut costs a bounded number of
    /// steps for each entry that it drops. Answers whether it was cut. Where there is no memory for a cut the journal
    /// stays, and grows on.
    pub fn trim(&mut self) -> bool
        ensures cut { result ≡ true → (T.KEEPS_ALL ≡ false) × (self.new
            ≡ record self.old { book = cut_off self.old.book }) }
        ensures unchanged { result ≡ false → self.new ≡ self.old }
    {
        if T::KEEPS_ALL {
            return false;
        }
        let entries = self.book.entries().len();
        if entries > FEW && entries / 2 > rows(self.book.base()) {
            return self.book.checkpoint().is_ok();
        }
        false
    }
}

// How many agents, signals and requests a core has. The number stays at its greatest value.
fn rows(core: &PlainCore) -> usize
    ensures { result ≡ min (rows_of core.now.state) (2 ^ 64 - 1) }
{
    core.agents()
        .len()
        .saturating_add(core.signals().len())
        .saturating_add(core.held().len())
        .saturating_add(core.pending().len())
}
