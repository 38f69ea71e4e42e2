//! What lies under a manager's lock.

ghost use Rattle.std.specs.Prelude.{◌≡◌, ◌+◌, ◌^◌, ◌≤◌, [], true, IfOk, IfErr, OnErr, OnOk};
ghost use Rattle.wl_types.specs.Refusals.{refused_or_memory};
ghost use Rattle.wl_machine.specs.Refusals.{refusal};
ghost use Rattle.wl_machine.specs.Step.{step};
ghost use Rattle.wl_manager.specs.Locked.{Does, Stays, first};

use crate::coarse_clock::CoarseClock;
use crate::count::Count;
use crate::keepers::Keepers;
use std::alloc::Global;
use std::marker::Model;
use wl_core::{Command, LockCore, Reply};
use wl_journal::{Book, Sight};
use wl_types::{Kind, Numbers, Refusal};

mod abort;
mod asking;
mod commands;
mod journal;
mod listing;
mod tally;

pub(crate) use asking::Asking;
pub use tally::{Leaving, TallyFault};

/// A journal, the keepers of its requests, and what was counted. Its type says what holds whenever the lock is free.
///
/// Each command does the machine's step, publishes its changes in their cells, ends before grants, and adds to the
/// caller's share what it recorded. A refused one leaves everything as it was, but that it may drop the keepers of
/// requests that have ended.
#[derive(Drop)]
pub struct Locked<C: LockCore, T: Count> {
    book: Book<C>,
    keepers: Keepers,
    // The number that the next request gets, so that its keeper's place is made before the journal is asked.
    next: u64,
    total: T::Total,
    // The share that others are split from, and that Leavings are merged into.
    share: T::Share,
    opened: u64,
    handed: u64,
    alloc: Global,
}

impl<C: LockCore, T: Count> Model for Locked<C, T> {
    ghost use Rattle.wl_manager.specs.Locked.{Inner, IsKept};

    ghost Value = { Inner };

    ghost view = { λ l. record {
      book = l.book;
      kept = l.keepers;
      next = l.next;
      opened = l.opened;
      handed = l.handed;
      total = T.total l.total;
      parts = T.parts l.share;
      amount = T.amount l.share;
    } };

    ghost invariant = { λ l. IsKept T.COUNTS T.KEEPS_ALL T.all
        (record {
          book = l.book;
          kept = l.keepers;
          next = l.next;
          opened = l.opened;
          handed = l.handed;
          total = T.total l.total;
          parts = T.parts l.share;
          amount = T.amount l.share;
        }) };
}

impl<C: LockCore, T: Count> Locked<C, T> {
    /// No agent, and no entry. Where shares are counted, the total is 0 and the share is the whole. The clock, if there
    /// is one, tells when requests come and are granted.
    pub fn new(
        alloc: Global,
        seed: C::Seed,
        total: T::Total,
        share: T::Share,
        clock: Option<CoarseClock>,
    ) -> Locked<C, T>
        requires total { T.COUNTS ≡ true → T.total total ≡ 0 }
        requires all { T.COUNTS ≡ true → (T.parts share ≡ T.all) × (2 ^ 53 ≤ T.all) }
        ensures state { result.book.state ≡ first }
        ensures none { (result.book.entries ≡ []) × (result.opened ≡ 0) × (result.handed ≡ 0) }
    {
        let numbers = Numbers {
            agent: 1,
            request: 1,
            signal: 1,
        };
        Locked {
            book: Book::make(alloc, seed, numbers),
            keepers: Keepers::new(alloc, clock),
            next: 1,
            total,
            share,
            opened: 0,
            handed: 0,
            alloc,
        }
    }

    /// A new agent, and its share: one part, which has the entry of its opening.
    pub fn open(&mut self, kind: Kind) -> Result<(u64, T::Share), Refusal>
        ensures opened { IfOk result (λ r. Does self.old self.new (Command.Enter kind) (Reply.Agent r.0)) }
        ensures share { IfOk result (λ r. T.COUNTS ≡ true → (T.parts r.1 ≡ 1) × (T.amount r.1 ≡ 1)) }
        ensures one_more { OnOk result ((self.new.opened ≡ self.old.opened + 1) × (self.new.handed ≡ self.old.handed)) }
        ensures refused { IfErr result (λ r. r ≡ refused_or_memory (refusal self.old.book.state (Command.Enter kind))) }
        ensures unchanged { OnErr result (Stays self.old self.new) }
    {
        self.keepers.drop_ended(self.book.changes());
        let agent = self.book.open(kind)?;
        self.keepers.publish_all(self.book.changes());
        let mut share = T::split(&mut self.share);
        T::add(&mut self.total, &mut share, 1);
        self.opened += 1;
        Ok((agent, share))
    }

    /// Why an agent can't open for which memory was refused.
    pub(crate) fn open_without_memory(&self, kind: Kind) -> Refusal
        ensures { result ≡ refused_or_memory (refusal self.now.book.state (Command.Enter kind)) }
    {
        match self.book.may_open() {
            Ok(()) => Refusal::Memory,
            Err(refusal) => refusal,
        }
    }

    /// What an agent sees, after how many entries: no fewer than its share has. Nothing is recorded.
    pub fn query(&mut self, agent: u64, share: &mut T::Share) -> Result<Sight, Refusal>
        ensures total { IfOk result (λ sight. sight.seen ≡ self.old.book.total) }
        ensures seen { IfOk result (λ sight. step self.old.book.state (Command.Query agent)
            ≡ record { state = self.old.book.state; reply = Reply.Seen sight.snapshot; changes = [] }) }
        ensures mine { T.COUNTS ≡ true → T.amount share.old ≤ self.old.book.total }
        ensures refused { IfErr result (λ r. r ≡ refused_or_memory
            (refusal self.old.book.state (Command.Query agent))) }
        ensures same { (self.new.book ≡ self.old.book) × (self.new.kept ≡ self.old.kept)
            × (self.new.next ≡ self.old.next) × (self.new.opened ≡ self.old.opened)
            × (self.new.handed ≡ self.old.handed) }
        ensures share { T.COUNTS ≡ true → (T.amount share.new ≡ T.amount share.old)
            × (T.parts share.new ≡ T.parts share.old) }
    {
        T::audit(&mut self.total, share);
        self.book.sight(agent)
    }
}
