//! The abort of a signal, which races with takes: whether it ends a granted lock is what one exchange finds.

ghost use Rattle.std.specs.Prelude.{◌≡◌, ◌+◌, ◌<◌, ℕ, [], length, true, Some, IfOk, IfErr, OnErr};
ghost use Rattle.wl_machine.specs.Refusals.{refusal};
ghost use Rattle.wl_machine.specs.OneMove.{phases_in};
ghost use Rattle.wl_machine.specs.Standing.{IsStanding};
ghost use Rattle.wl_journal.specs.History.{recorded};
ghost use Rattle.wl_manager.specs.Keepers.{phases_at};
ghost use Rattle.wl_manager.specs.Locked.{Stays};
ghost use Rattle.wl_manager.specs.Aborts.{Found, Aborts, taken};
ghost use Rattle.wl_manager.specs.inner.Aborts.{TriedAll};

use crate::count::Count;
use crate::keepers::Keepers;
use crate::locked::Locked;
use wl_core::{AbortAnswer, Command, LockCore, Reply};
use wl_journal::Book;
use wl_types::{Reason, Refusal};

impl<C: LockCore, T: Count> Locked<C, T> {
    /// Aborts an agent's signal. Of its granted locks, those whose owners are found to have taken them stay, and the
    /// takes are entered; the others, and the requests that wait, end as aborted.
    pub fn abort(
        &mut self,
        agent: u64,
        signal: u64,
        reason: Reason,
        share: &mut T::Share,
    ) -> Result<AbortAnswer, Refusal>
        requires { T.COUNTS ≡ true → 0 < T.parts share.old }
        ensures aborted { IfOk result (λ answer. (found : Found)
            × Aborts self.old self.new agent signal reason answer found
            × (T.COUNTS ≡ true → T.amount share.new ≡ T.amount share.old + length (taken found)
            + length (recorded (Command.Abort agent signal reason) (Reply.Aborted answer)))) }
        ensures parts { T.COUNTS ≡ true → T.parts share.new ≡ T.parts share.old }
        ensures opened { (self.new.opened ≡ self.old.opened) × (self.new.handed ≡ self.old.handed) }
        ensures refused { IfErr result (λ r. refusal self.old.book.state (Command.Abort agent signal reason) ≡ Some r) }
        ensures unchanged { OnErr result (Stays self.old self.new × (share.new ≡ share.old)) }
    {
        self.keepers.drop_ended(self.book.changes());
        let taken = abort_granted(&mut self.book, &mut self.keepers, agent, signal, reason);
        let answer = match self.book.abort(agent, signal, reason) {
            Ok(answer) => answer,
            Err(refusal) => return Err(refusal),
        };
        self.keepers.publish_all(self.book.changes());
        let own = entries_of(agent, signal, reason, answer);
        T::add(&mut self.total, share, taken + own);
        Ok(answer)
    }
}

// Tries to abort each granted lock of the signal, in the order of their numbers, and enters the take of each that was
// taken before. Answers how many were.
fn abort_granted<C: LockCore>(
    book: &mut Book<C>,
    keepers: &mut Keepers,
    agent: u64,
    signal: u64,
    reason: Reason,
) -> u64
    requires standing { IsStanding book.old.state }
    requires from_one { phases_in book.old.state 0 ≡ [] }
    requires published { (id : ℕ) → phases_at id keepers.old ≡ phases_in book.old.state id }
    ensures { (found : Found) × TriedAll book.old keepers.old agent signal reason book.new keepers.new found
        × (result ≡ length (taken found)) }
{
    let mut taken = 0;
    let mut after = 0;
    while let Some(id) = book.untaken_above(agent, signal, after) {
        if !keepers.try_abort(id, reason) {
            book.take(id);
            taken += 1;
        }
        after = id;
    }
    taken
}

// How many entries an abort's own answer records.
fn entries_of(agent: u64, signal: u64, reason: Reason, answer: AbortAnswer) -> u64
    ensures count { result ≡ length (recorded (Command.Abort agent signal reason) (Reply.Aborted answer)) }
    ensures few { result < 2 }
{
    match answer {
        AbortAnswer::Done => 1,
        AbortAnswer::AlreadyAborted => 0,
    }
}
