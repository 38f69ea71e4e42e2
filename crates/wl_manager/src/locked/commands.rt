//! The commands that one agent gives, but the abort.

ghost use Rattle.std.specs.Prelude.{◌≡◌, ◌+◌, ◌<◌, [], ◌∷◌, length, true, Some, IfOk, IfErr, OnErr, OnOk};
ghost use Rattle.wl_types.specs.Refusals.{refused_or_memory};
ghost use Rattle.wl_machine.specs.Refusals.{refusal};
ghost use Rattle.wl_journal.specs.History.{recorded};
ghost use Rattle.wl_manager.specs.Keepers.{cells_at};
ghost use Rattle.wl_manager.specs.Locked.{Does, Stays};

use crate::count::Count;
use crate::inbox::Inbox;
use crate::locked::{Asking, Locked};
use std::sync::Arc;
use wl_cell::Owner;
use wl_core::{Command, LockCore, ReleaseAnswer, Reply};
use wl_types::{Ask, Memory, Refusal};

impl<C: LockCore, T: Count> Locked<C, T> {
    /// A new signal of an agent.
    pub fn new_signal(&mut self, agent: u64, share: &mut T::Share) -> Result<u64, Refusal>
        requires { T.COUNTS ≡ true → 0 < T.parts share.old }
        ensures made { IfOk result (λ signal. Does self.old self.new (Command.NewSignal agent) (Reply.Signal signal)) }
        ensures counted { OnOk result (T.COUNTS ≡ true → T.amount share.new ≡ T.amount share.old + 1) }
        ensures parts { T.COUNTS ≡ true → T.parts share.new ≡ T.parts share.old }
        ensures opened { (self.new.opened ≡ self.old.opened) × (self.new.handed ≡ self.old.handed) }
        ensures refused { IfErr result (λ r. r ≡ refused_or_memory
            (refusal self.old.book.state (Command.NewSignal agent))) }
        ensures unchanged { OnErr result (Stays self.old self.new × (share.new ≡ share.old)) }
    {
        self.keepers.drop_ended(self.book.changes());
        let signal = self.book.new_signal(agent)?;
        self.keepers.publish_all(self.book.changes());
        T::add(&mut self.total, share, 1);
        Ok(signal)
    }

    /// Makes a window active or inactive.
    pub fn set_active(
        &mut self,
        agent: u64,
        active: bool,
        share: &mut T::Share,
    ) -> Result<(), Refusal>
        requires { T.COUNTS ≡ true → 0 < T.parts share.old }
        ensures done { OnOk result (Does self.old self.new (Command.SetActive agent active) Reply.Done) }
        ensures counted { OnOk result (T.COUNTS ≡ true → T.amount share.new ≡ T.amount share.old + 1) }
        ensures parts { T.COUNTS ≡ true → T.parts share.new ≡ T.parts share.old }
        ensures opened { (self.new.opened ≡ self.old.opened) × (self.new.handed ≡ self.old.handed) }
        ensures refused { IfErr result (λ r. r ≡ refused_or_memory
            (refusal self.old.book.state (Command.SetActive agent active))) }
        ensures unchanged { OnErr result (Stays self.old self.new × (share.new ≡ share.old)) }
    {
        self.keepers.drop_ended(self.book.changes());
        self.book.set_active(agent, active)?;
        self.keepers.publish_all(self.book.changes());
        T::add(&mut self.total, share, 1);
        Ok(())
    }

    /// Gives up a lock. A number that isn't the agent's held lock is `NotHeld`.
    pub fn release(&mut self, agent: u64, id: u64, share: &mut T::Share) -> ReleaseAnswer
        requires { T.COUNTS ≡ true → 0 < T.parts share.old }
        ensures released { Does self.old self.new (Command.Release agent id) (Reply.Released result) }
        ensures counted { T.COUNTS ≡ true → T.amount share.new
            ≡ T.amount share.old + length (recorded (Command.Release agent id) (Reply.Released result)) }
        ensures parts { T.COUNTS ≡ true → T.parts share.new ≡ T.parts share.old }
        ensures opened { (self.new.opened ≡ self.old.opened) × (self.new.handed ≡ self.old.handed) }
    {
        self.keepers.drop_ended(self.book.changes());
        let answer = self.book.release(agent, id);
        self.keepers.publish_all(self.book.changes());
        T::add(&mut self.total, share, entries_of(agent, id, answer));
        answer
    }

    /// Ends an agent.
    pub fn terminate(&mut self, agent: u64, share: &mut T::Share) -> Result<(), Refusal>
        requires { T.COUNTS ≡ true → 0 < T.parts share.old }
        ensures ended { OnOk result (Does self.old self.new (Command.Terminate agent) Reply.Done) }
        ensures counted { OnOk result (T.COUNTS ≡ true → T.amount share.new ≡ T.amount share.old + 1) }
        ensures parts { T.COUNTS ≡ true → T.parts share.new ≡ T.parts share.old }
        ensures opened { (self.new.opened ≡ self.old.opened) × (self.new.handed ≡ self.old.handed) }
        ensures refused { IfErr result (λ r. refusal self.old.book.state (Command.Terminate agent) ≡ Some r) }
        ensures unchanged { OnErr result (Stays self.old self.new × (share.new ≡ share.old)) }
    {
        self.keepers.drop_ended(self.book.changes());
        self.book.terminate(agent)?;
        self.keepers.publish_all(self.book.changes());
        T::add(&mut self.total, share, 1);
        Ok(())
    }

    /// Asks for a lock. The owner is of the cell whose keeper is kept under the number, also where the request is
    /// unavailable at once. Its changes go to this inbox.
    pub fn request(
        &mut self,
        agent: u64,
        ask: &Ask,
        inbox: &Arc<Inbox>,
        share: &mut T::Share,
    ) -> Result<(u64, Owner), Refusal>
        requires { T.COUNTS ≡ true → 0 < T.parts share.old }
        ensures requested { IfOk result (λ r. Does self.old self.new (Command.Request agent ask.now)
            (Reply.Request r.0)) }
        ensures owner { IfOk result (λ r. cells_at r.0 self.new.kept ≡ r.1.cell ∷ []) }
        ensures counted { OnOk result (T.COUNTS ≡ true → T.amount share.new ≡ T.amount share.old + 1) }
        ensures parts { T.COUNTS ≡ true → T.parts share.new ≡ T.parts share.old }
        ensures opened { (self.new.opened ≡ self.old.opened) × (self.new.handed ≡ self.old.handed) }
        ensures refused { IfErr result (λ r. r ≡ refused_or_memory
            (refusal self.old.book.state (Command.Request agent ask.now))) }
        ensures unchanged { OnErr result (Stays self.old self.new × (share.new ≡ share.old)) }
    {
        let asking = Asking::new(self.alloc, ask, inbox);
        self.request_with(agent, ask, asking, share)
    }

    /// As `request`, of an ask for which this was made, or memory was refused.
    pub(crate) fn request_with(
        &mut self,
        agent: u64,
        ask: &Ask,
        asking: Result<Asking, Memory>,
        share: &mut T::Share,
    ) -> Result<(u64, Owner), Refusal>
        requires parts { T.COUNTS ≡ true → 0 < T.parts share.old }
        requires ask { IfOk asking (λ asking. asking.ask ≡ ask.now) }
        ensures requested { IfOk result (λ r. Does self.old self.new (Command.Request agent ask.now)
            (Reply.Request r.0)) }
        ensures owner { IfOk result (λ r. cells_at r.0 self.new.kept ≡ r.1.cell ∷ []) }
        ensures counted { OnOk result (T.COUNTS ≡ true → T.amount share.new ≡ T.amount share.old + 1) }
        ensures parts { T.COUNTS ≡ true → T.parts share.new ≡ T.parts share.old }
        ensures opened { (self.new.opened ≡ self.old.opened) × (self.new.handed ≡ self.old.handed) }
        ensures refused { IfErr result (λ r. r ≡ refused_or_memory
            (refusal self.old.book.state (Command.Request agent ask.now))) }
        ensures unchanged { OnErr result (Stays self.old self.new × (share.new ≡ share.old)) }
    {
        let Ok(asking) = asking else {
            return Err(self.without_memory(agent, ask));
        };
        let Asking {
            ask: kept,
            keeper,
            owner,
            inbox,
        } = asking;
        self.book.may_request(agent, ask)?;
        let Ok(()) = self.keepers.put(self.next, keeper, inbox) else {
            return Err(Refusal::Memory);
        };
        self.keepers.drop_ended(self.book.changes());
        let id = match self.book.request_kept(agent, kept) {
            Ok(id) => id,
            Err(refusal) => {
                self.keepers.remove(self.next);
                return Err(refusal);
            }
        };
        self.keepers.publish_all(self.book.changes());
        self.next = id + 1;
        T::add(&mut self.total, share, 1);
        Ok((id, owner))
    }

    /// Why a request isn't admitted for which memory was refused.
    pub(crate) fn without_memory(&self, agent: u64, ask: &Ask) -> Refusal
        ensures { result ≡ refused_or_memory (refusal self.now.book.state (Command.Request agent ask.now)) }
    {
        match self.book.may_request(agent, ask) {
            Ok(()) => Refusal::Memory,
            Err(refusal) => refusal,
        }
    }
}

// How many entries a release records.
fn entries_of(agent: u64, id: u64, answer: ReleaseAnswer) -> u64
    ensures { result ≡ length (recorded (Command.Release agent id) (Reply.Released answer)) }
{
    match answer {
        ReleaseAnswer::Released => 1,
        ReleaseAnswer::NotHeld => 0,
    }
}
