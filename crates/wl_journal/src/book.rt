//! A core that keeps a journal.

ghost use Rattle.std.specs.Prelude.{◌≡◌, ◌<◌, ◌^◌, [], ◌↔◌, IsTrue, IfOk, IfErr, OnErr, OnOk, length};
ghost use Rattle.wl_types.specs.Refusals.{refused_or_memory};
ghost use Rattle.wl_machine.specs.Refusals.{refusal};
ghost use Rattle.wl_machine.specs.Step.{step};
ghost use Rattle.wl_journal.specs.History.{IsLegal, state_of};
ghost use Rattle.wl_journal.specs.Books.{cut_off};

use crate::entry::Entry;
use crate::room::count_owed;
use std::alloc::Global;
use std::marker::Model;
use wl_core::{Command, LockCore, PlainCore, Reply, clear_list};
use wl_types::{Memory, Refusal, Snapshot};

mod recording;
mod requesting;

pub use requesting::copy_ask;

/// A core that keeps a journal: it does what its core does, and records each command that the core accepted, with its
/// reply. What changes nothing isn't recorded: queries, refusals, `NotGranted`, `NotHeld`, `AlreadyAborted`. An
/// accepted `set_active` is, whether or not it changed something.
///
/// Beside its core's work each call does a bounded number of steps; only `cut` copies the state. Since a book grows
/// until it is cut, one that lives long should be cut now and then.
///
/// `open`, `set_active`, `new_signal` and `request` grow the journal before they call the core, unless the core refuses
/// the call in any case. They make room too for the entries that are to come without a growth: two for each live
/// request, one for each unaborted signal and each agent. So `take`, `release`, `abort` and `terminate` need no memory.
#[derive(Drop)]
pub struct Book<C: LockCore> {
    core: C,
    base: PlainCore,
    // The base before, for the room of its lists.
    spare: Option<PlainCore>,
    entries: Vec<Entry>,
    // No fewer than the entries that may still come without a growth, and just these after a cut: in between an end
    // that leaves some of a request's entries out isn't counted off.
    owed: usize,
    // How many entries cuts have handed out.
    handed_out: u64,
    // There are no changes to tell, since the last call was refused before the core was asked.
    is_quiet: bool,
    alloc: Global,
}

impl<C: LockCore> Model for Book<C> {
    ghost use Rattle.std.specs.Prelude.{◌+◌, [], length, vec_capacity, if◌then◌else◌};
    ghost use Rattle.wl_journal.specs.Books.{Book as BookContent};
    ghost use Rattle.wl_journal.specs.inner.Books.{IsKept};

    ghost Value = { BookContent };

    ghost view = { λ b. record {
      state = C.state b.core;
      recent = if b.is_quiet then []
          else C.recent b.core;
      base = b.base.state;
      entries = b.entries.items;
      total = b.handed_out + length b.entries.items;
    } };

    ghost invariant = { λ b. IsKept b.base.state (C.state b.core) b.entries.items b.owed (vec_capacity b.entries)
        b.handed_out };
}

/// What an agent sees, and where in the journal's course it sees it.
#[derive(Debug, Drop)]
pub struct Sight {
    /// The entries that had ever been recorded.
    pub seen: u64,
    pub snapshot: Snapshot,
}

// 2^62: with as many entries recorded a book isn't cut any more, so that their number stays within a u64.
const MOST_RECORDED: u64 = 4611686018427387904;

impl<C: LockCore> Book<C> {
    /// How many entries there are since the last cut.
    pub fn len(&self) -> usize
        ensures { result ≡ length self.now.entries }
    {
        self.entries.len()
    }

    /// Whether there is no entry since the last cut.
    pub fn is_empty(&self) -> bool
        ensures { IsTrue result ↔ (self.now.entries ≡ []) }
    {
        self.entries.is_empty()
    }

    /// The entries since the last cut, in the order of their commands.
    pub fn entries(&self) -> &[Entry]
        ensures entries { result.now ≡ self.now.entries }
        ensures legal { IsLegal self.now.base result.now }
        ensures leads { self.now.state ≡ state_of self.now.base result.now }
    {
        self.entries.as_slice()
    }

    /// A core of the state at the last cut, or of the opening state where there was none.
    pub fn base(&self) -> &PlainCore
        ensures { result.now.state ≡ self.now.base }
    {
        &self.base
    }

    /// How many entries were ever recorded, those that cuts handed out with them.
    pub fn total(&self) -> u64
        ensures { result ≡ self.now.total }
    {
        self.handed_out + self.entries.len() as u64
    }

    /// The agent's snapshot, with `total`. Nothing is recorded. Refused: as `snapshot`.
    pub fn sight(&self, agent: u64) -> Result<Sight, Refusal>
        ensures total { IfOk result (λ sight. sight.seen ≡ self.now.total) }
        ensures seen { IfOk result (λ sight. step self.now.state (Command.Query agent)
            ≡ record { state = self.now.state; reply = Reply.Seen sight.snapshot; changes = [] }) }
        ensures refused { IfErr result (λ r. r ≡ refused_or_memory (refusal self.now.state (Command.Query agent))) }
    {
        let seen = self.total();
        match self.snapshot(agent) {
            Ok(snapshot) => Ok(Sight { seen, snapshot }),
            Err(refusal) => Err(refusal),
        }
    }

    /// The state as the base of what comes after a cut, in the room of another core where there is one. `Memory` also
    /// where `total` has reached 2^62.
    fn copy_base(&self, room: Option<PlainCore>) -> Result<PlainCore, Memory>
        ensures base { IfOk result (λ base. base.state ≡ self.now.state) }
        ensures bounded { OnOk result (self.now.total < 2 ^ 62) }
    {
        if self.total() >= MOST_RECORDED {
            return Err(Memory);
        }
        match room {
            Some(core) => self.core.copy_plain_in(core),
            None => self.core.copy_plain(),
        }
    }

    /// Hands out the entries and goes on from here: the base becomes the state, and there are no entries. `Memory`,
    /// with the book as it was, also where `total` has reached 2^62.
    pub fn cut(&mut self) -> Result<Vec<Entry>, Memory>
        ensures entries { IfOk result (λ entries. entries.items ≡ self.old.entries) }
        ensures legal { IfOk result (λ entries. IsLegal self.old.base entries.items) }
        ensures cut { OnOk result (self.new ≡ cut_off self.old) }
        ensures bounded { OnOk result (self.old.total < 2 ^ 62) }
        ensures unchanged { OnErr result (self.new ≡ self.old) }
    {
        let base = self.copy_base(None)?;
        let owed = count_owed(&base);
        let total = self.total();
        let empty = Vec::with_capacity(self.alloc, owed)?;
        let entries = std::mem::replace(&mut self.entries, empty);
        self.base = base;
        self.owed = owed;
        self.handed_out = total;
        Ok(entries)
    }

    /// `cut`, by which the entries are dropped. Their room is kept for those that come, and that of the base for the
    /// base after the next one, so that a book that is cut again and again takes new blocks for names alone. `Memory`,
    /// with the book as it was, as `cut`.
    pub fn checkpoint(&mut self) -> Result<(), Memory>
        ensures cut { OnOk result (self.new ≡ cut_off self.old) }
        ensures bounded { OnOk result (self.old.total < 2 ^ 62) }
        ensures unchanged { OnErr result (self.new ≡ self.old) }
    {
        let room = self.spare.take();
        let state = self.copy_base(room)?;
        let owed = count_owed(&state);
        let recorded = self.total();
        clear_list(self.alloc, owed, &mut self.entries)?;
        self.spare = Some(std::mem::replace(&mut self.base, state));
        self.owed = owed;
        self.handed_out = recorded;
        Ok(())
    }
}
