//! An agent of a manager.

ghost use Rattle.std.specs.Prelude.{◌≡◌, ℕ, ◌+◌, ◌≤◌, true, ◌⊎◌, ◌==◌, not, IfOk, IfErr, OnOk, OnErr, if◌then◌else◌};
ghost use Rattle.std.specs.List.{list_any};
ghost use Rattle.wl_types.specs.declared.answers.AbortAnswer.TheVariants.{AlreadyAborted};
ghost use Rattle.wl_types.specs.declared.refusal.Refusal.TheVariants.{NoSuchAgent, NoSuchSignal};
ghost use Rattle.wl_machine.specs.declared.command.Command.TheVariants as command;
ghost use Rattle.wl_manager.specs.Agents.{MayRefuse, is_released, entries_of_abort};

use crate::count::Count;
use crate::inbox::Inbox;
use crate::locked::{Asking, Leaving};
use crate::manager::Manager;
use crate::ticket::Ticket;
use std::sync::{Arc, Wait};
use wl_core::LockCore;
use wl_journal::Sight;
use wl_types::{AbortAnswer, Ask, Change, Reason, Refusal, ReleaseAnswer};

/// A window or worker that opened. Each call but `client`, `changed_requests`, `is_rung` and `silence_bell` takes the
/// manager's lock, and is one event of the machine.
///
/// Where shares are counted, an agent's share has as many entries as its calls recorded. An agent should end by
/// `terminate`: one that is dropped stays in the manager, with its locks.
#[derive(Drop)]
pub struct Agent<C: LockCore, T: Count> {
    pub(crate) manager: Arc<Manager<C, T>>,
    pub(crate) number: u64,
    pub(crate) share: T::Share,
    pub(crate) inbox: Arc<Inbox>,
    ghost one: { T.COUNTS ≡ true → T.parts share ≡ 1 },
}

impl<C: LockCore, T: Count> Agent<C, T> {
    /// Its number, from 1 in its manager.
    pub fn client(&self) -> u64
        ensures { result ≡ self.now.number }
    {
        self.number
    }

    /// Puts the numbers of the requests that changed since the last such call in place of those that the list has, in
    /// no order and some more than once. Answers whether these are all: else any request may have changed. It takes no
    /// lock of the manager, and waits for nobody.
    pub fn changed_requests(&self, numbers: &mut Vec<u64>) -> bool {
        self.inbox.collect(numbers)
    }

    /// Whether a request changed since `changed_requests` was last called. A bell that the agent was opened with was
    /// rung then.
    pub fn is_rung(&self) -> bool {
        self.inbox.is_rung()
    }

    /// From here until `changed_requests` is next called no change rings the bell, and `is_rung` answers true: for
    /// whoever is about to call that in any case, as behind an operation of its own. Whoever doesn't is told of nothing
    /// any more.
    pub fn silence_bell(&self) {
        self.inbox.silence();
    }

    /// Asks for a lock. The ticket tells what becomes of it. Refused: as `LockCore::request`.
    pub fn request<R: Wait>(&mut self, rt: &R, ask: &Ask) -> Result<Ticket<C, T>, Refusal>
        ensures refused { IfErr result (MayRefuse (command.Request self.old.number ask.now)) }
        ensures counted { OnOk result (T.COUNTS ≡ true → T.amount self.new.share ≡ T.amount self.old.share + 1) }
        ensures err { OnErr result (T.COUNTS ≡ true → T.amount self.new.share ≡ T.amount self.old.share) }
        ensures client { self.new.number ≡ self.old.number }
    {
        let Ok(manager) = Arc::try_clone(&self.manager) else {
            return Err(self.manager.lock(rt).without_memory(self.number, ask));
        };
        // Made before the lock is taken, so that others wait for less.
        let asking = Asking::new(self.manager.alloc, ask, &self.inbox);
        let mut locked = self.manager.lock(rt);
        let (number, owner) = match locked.request_with(self.number, ask, asking, &mut self.share) {
            Ok(made) => made,
            Err(refusal) => return Err(refusal),
        };
        let tells = tells_of_another(locked.changes(), number);
        locked.trim();
        drop(locked);
        self.manager.wake(tells);
        Ok(Ticket {
            manager,
            owner,
            number,
        })
    }

    /// Gives up the lock of this ticket, by its number. `NotHeld` where this agent doesn't hold it. The ticket should
    /// be of this agent's manager: the number of another's means another request here.
    pub fn release<R: Wait>(&mut self, rt: &R, ticket: &mut Ticket<C, T>) -> ReleaseAnswer
        ensures counted { T.COUNTS ≡ true → T.amount self.new.share
            ≡ T.amount self.old.share + (if is_released result then 1 else 0) }
        ensures client { self.new.number ≡ self.old.number }
        ensures ticket { ticket.new ≡ ticket.old }
    {
        let id = ticket.number;
        let mut locked = self.manager.lock(rt);
        let answer = locked.release(self.number, id, &mut self.share);
        let tells = tells_of_another(locked.changes(), id);
        drop(locked);
        self.manager.wake(tells);
        answer
    }

    /// A new signal, by its number. Refused: `TooManySignals` where this agent has made 1,024, `NumbersSpent`,
    /// `Memory`.
    pub fn new_signal<R: Wait>(&mut self, rt: &R) -> Result<u64, Refusal>
        ensures refused { IfErr result (MayRefuse (command.NewSignal self.old.number)) }
        ensures counted { OnOk result (T.COUNTS ≡ true → T.amount self.new.share ≡ T.amount self.old.share + 1) }
        ensures err { OnErr result (T.COUNTS ≡ true → T.amount self.new.share ≡ T.amount self.old.share) }
        ensures client { self.new.number ≡ self.old.number }
    {
        let mut locked = self.manager.lock(rt);
        let signal = locked.new_signal(self.number, &mut self.share)?;
        locked.trim();
        drop(locked);
        Ok(signal)
    }

    /// Aborts a signal of this agent. Its requests that wait end, and so do its granted locks that weren't taken: of
    /// an abort and a take that race, one wins. It takes no memory. Refused: `NoSuchSignal`.
    pub fn abort<R: Wait>(
        &mut self,
        rt: &R,
        signal: u64,
        reason: Reason,
    ) -> Result<AbortAnswer, Refusal>
        ensures counted { IfOk result (λ answer. T.COUNTS ≡ true
            → (takes : ℕ) × (answer ≡ AlreadyAborted → takes ≡ 0)
            × (T.amount self.new.share ≡ T.amount self.old.share + takes + entries_of_abort answer)) }
        ensures refused { IfErr result (λ refusal. (refusal ≡ NoSuchAgent) ⊎ (refusal ≡ NoSuchSignal)) }
        ensures err { OnErr result (T.COUNTS ≡ true → T.amount self.new.share ≡ T.amount self.old.share) }
        ensures client { self.new.number ≡ self.old.number }
    {
        let mut locked = self.manager.lock(rt);
        let aborted = locked.abort(self.number, signal, reason, &mut self.share);
        let tells = !locked.changes().is_empty();
        drop(locked);
        self.manager.wake(tells);
        aborted
    }

    /// Makes this window active or inactive: an inactive one may neither request nor query. Refused: `NotAWindow`,
    /// `Memory`.
    pub fn set_active<R: Wait>(&mut self, rt: &R, active: bool) -> Result<(), Refusal>
        ensures refused { IfErr result (MayRefuse (command.SetActive self.old.number active)) }
        ensures counted { OnOk result (T.COUNTS ≡ true → T.amount self.new.share ≡ T.amount self.old.share + 1) }
        ensures err { OnErr result (T.COUNTS ≡ true → T.amount self.new.share ≡ T.amount self.old.share) }
        ensures client { self.new.number ≡ self.old.number }
    {
        let mut locked = self.manager.lock(rt);
        locked.set_active(self.number, active, &mut self.share)?;
        locked.trim();
        drop(locked);
        Ok(())
    }

    /// What is held and what waits, after how many entries. Refused: `InvalidState`, `Memory`.
    pub fn query<R: Wait>(&mut self, rt: &R) -> Result<Sight, Refusal>
        ensures refused { IfErr result (MayRefuse (command.Query self.old.number)) }
        ensures mine { IfOk result (λ sight. T.COUNTS ≡ true → T.amount self.old.share ≤ sight.seen) }
        ensures same { T.COUNTS ≡ true → T.amount self.new.share ≡ T.amount self.old.share }
        ensures client { self.new.number ≡ self.old.number }
    {
        self.manager.lock(rt).query(self.number, &mut self.share)
    }

    /// Ends this agent: its requests end, its locks are given up, its signals are gone.
    pub fn terminate<R: Wait>(self, rt: &R) -> Leaving<T>
        ensures grown { T.COUNTS ≡ true → T.amount self.share ≤ T.amount result.share }
        ensures one_more { T.COUNTS ≡ true → T.amount result.share ≤ T.amount self.share + 1 }
    {
        let Agent {
            manager,
            number,
            share,
            inbox: _inbox,
        } = self;
        let mut share = share;
        let mut locked = manager.lock(rt);
        // Only this call ends the agent, so it is never refused.
        let _ = locked.terminate(number, &mut share);
        let tells = !locked.changes().is_empty();
        drop(locked);
        manager.wake(tells);
        Leaving { share }
    }
}

// Whether changes tell of a request other than this one. Nobody waits for one that was just made, or that is held.
fn tells_of_another(changes: &[Change], id: u64) -> bool
    ensures { result ≡ list_any (λ change. not (change.id == id)) changes.now }
{
    changes.iter().any(|change| change.id != id)
}
