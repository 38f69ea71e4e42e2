//! A session of an agent.

ghost use Rattle.std.specs.Prelude.{◌≡◌, ◌+◌, ◌≤◌, ◌&&◌, All, IfOk, OnOk, OnErr, IsTrue, filter, length, true, vec_len};
ghost use Rattle.std.specs.Prelude.{vec_capacity, string_bytes};
ghost use Rattle.wl_codec.specs.Replies.{reply_text};
ghost use Rattle.wl_session.specs.Planned.{plan_for};
ghost use Rattle.wl_session.specs.Step.{reply, after, carries_notices, last_reported_after, notices, closed};
ghost use Rattle.wl_session.specs.LastReported.{Fits, IsByNumber, found_in, has_due_notices, is_live, with_released};
ghost use Rattle.wl_session.specs.inner.Upkeep.{IsKept};

use crate::last_reported::{due_notices, fits, found_in, has_due_notices, with_released};
use crate::outcomes::{carries_notices, opens};
use crate::plan::{Plan, plan_for};
use crate::upkeep::{AtOnce, Upkeep, make_room, report};
use std::alloc::Global;
use std::marker::{Model, PhantomData};
use wl_codec::{Notices, Outcome, Reading, WireReply, write_reply};
use wl_types::{Memory, Phase};

/// What a label of a script, or a connection, knows of its agent: whether it is open, and the reported list.
#[derive(Drop)]
pub struct SessionOf<U: Upkeep> {
    alloc: Global,
    is_open: bool,
    // What is live in it is the reported list. Where ends don't leave at once it has some of them too.
    last_reported: Vec<(u64, Phase)>,
    upkeep: PhantomData<U>,
}

/// A session that can show its reported list.
pub type Session = SessionOf<AtOnce>;

impl<U: Upkeep> Model for SessionOf<U> {
    ghost use Rattle.std.specs.Prelude.{filter};
    ghost use Rattle.wl_session.specs.Step.{State};
    ghost use Rattle.wl_session.specs.LastReported.{is_live};
    ghost use Rattle.wl_session.specs.inner.Upkeep.{IsKept};

    ghost Value = { State };

    ghost view = { λ session. record {
      is_open = session.is_open;
      last_reported = filter is_live session.last_reported.items;
    } };

    ghost invariant = { λ session. IsKept U.AT_ONCE session.last_reported.items };
}

fn notices(
    alloc: Global,
    last_reported: &[(u64, Phase)],
    outcome: &Outcome,
    observed: &[(u64, Phase)],
) -> Result<Notices, Memory>
    requires { IsByNumber last_reported.now }
    ensures { IfOk result (λ found. found ≡ notices (filter is_live last_reported.now) outcome.now observed.now) }
{
    if carries_notices(outcome) {
        due_notices(alloc, outcome, last_reported, observed)
    } else {
        Ok(Notices::new(alloc))
    }
}

/// Makes the reported list what it is after the reply. It needs no memory.
fn report_after<U: Upkeep>(
    alloc: Global,
    last_reported: &mut Vec<(u64, Phase)>,
    outcome: &Outcome,
    observed: &[(u64, Phase)],
)
    requires kept { IsKept U.AT_ONCE last_reported.old.items }
    requires room { vec_len last_reported.old + length observed.now ≤ vec_capacity last_reported.old }
    ensures last_reported { filter is_live last_reported.new.items
        ≡ last_reported_after (filter is_live last_reported.old.items) outcome.now observed.now }
    ensures kept { IsKept U.AT_ONCE last_reported.new.items }
{
    match outcome {
        Outcome::Client(_) | Outcome::Closed => *last_reported = Vec::new(alloc),
        _ => {
            if carries_notices(outcome) {
                report::<U>(last_reported, observed);
            }
        }
    }
}

impl Session {
    /// The reported list: the requests whose end wasn't reported, each with the phase that was last reported.
    pub fn live(&self) -> &[(u64, Phase)]
        ensures last_reported { result.now ≡ self.now.last_reported }
        ensures by_number { IsByNumber result.now }
        ensures live { All (λ observation. is_live observation ≡ true) result.now }
    {
        &self.last_reported
    }

    /// The phase that was last reported of a request. None where nothing was, or its end.
    pub fn phase_of(&self, number: u64) -> Option<Phase>
        ensures { result ≡ found_in self.now.last_reported number }
    {
        found_in(self.live(), number)
    }

    /// Whether what was found of a request fits what was last reported. `finish` and `finish_changed` take other
    /// observations too, and tell them as they are; whoever finds what it looks at behind a lock leaves them out by
    /// this.
    pub fn fits(&self, outcome: &Outcome, observation: (u64, Phase)) -> bool
        ensures { IsTrue result → Fits outcome.now self.now.last_reported observation }
    {
        fits(self.live(), outcome, observation)
    }
}

impl<U: Upkeep> SessionOf<U> {
    /// Whether a reply of this outcome would have notices, after these observations.
    pub fn has_notices(&self, outcome: &Outcome, observed: &[(u64, Phase)]) -> bool
        ensures { result ≡ (carries_notices outcome.now && has_due_notices outcome.now self.now.last_reported
            observed.now) }
    {
        carries_notices(outcome)
            && has_due_notices(outcome, self.last_reported.as_slice(), observed)
    }

    /// A session that isn't open. It takes no memory before its first reply.
    pub fn new(alloc: Global) -> SessionOf<U>
        ensures { result ≡ closed }
    {
        SessionOf {
            alloc,
            is_open: false,
            last_reported: Vec::new(alloc),
            upkeep: PhantomData,
        }
    }

    /// What is to be done for a message that was read. It takes no memory, and changes nothing: the outcome does.
    pub fn plan(&self, reading: Reading) -> Plan
        ensures { result ≡ plan_for self.now.is_open reading }
    {
        plan_for(self.is_open, reading)
    }

    /// The text of the reply to a message, given the id that `plan` gave, the outcome, and the phases found of the
    /// requests whose phase may differ from the one last reported: a request that isn't named stays as it is. A new
    /// request is named, one that the agent released is named as `Released`, and a grant is taken before it is looked
    /// at. Observations play no part where `carries_notices` says that the reply has no notices.
    ///
    /// An observation costs two searches by halves in the reported list. A request that comes in elsewhere than at the
    /// end also moves the list behind it, and where ends leave at once so does an end; `InTime` says what they cost
    /// elsewhere. At `Memory` the session is as it was.
    pub fn finish_changed(
        &mut self,
        id: Option<u64>,
        outcome: Outcome,
        observed: &[(u64, Phase)],
    ) -> Result<String, Memory>
        requires { IsByNumber observed.now }
        ensures text { IfOk result (λ text. string_bytes text
            ≡ reply_text (reply self.old id outcome observed.now)) }
        ensures ok { OnOk result (self.new ≡ after self.old outcome observed.now) }
        ensures err { OnErr result (self.new ≡ self.old) }
    {
        // What needs memory comes first, so that nothing is half done where there is none.
        let notices = notices(
            self.alloc,
            self.last_reported.as_slice(),
            &outcome,
            observed,
        )?;
        make_room::<U>(&mut self.last_reported, observed.len())?;
        let reply = WireReply {
            id,
            notices,
            outcome,
        };
        let text = write_reply(self.alloc, &reply)?;
        self.is_open = opens(self.is_open, &reply.outcome);
        report_after::<U>(
            self.alloc,
            &mut self.last_reported,
            &reply.outcome,
            observed,
        );
        Ok(text)
    }

    /// `finish_changed` for a caller that looks at every request: those of `live`, the new one, and not the one that
    /// the agent released. A request of `live` that isn't named is taken as released. It goes over the whole list.
    pub fn finish(
        &mut self,
        id: Option<u64>,
        outcome: Outcome,
        observed: &[(u64, Phase)],
    ) -> Result<String, Memory>
        requires { IsByNumber observed.now }
        ensures text { IfOk result (λ text. string_bytes text
            ≡ reply_text (reply self.old id outcome (with_released self.old.last_reported observed.now))) }
        ensures ok { OnOk result
            (self.new ≡ after self.old outcome (with_released self.old.last_reported observed.now)) }
        ensures err { OnErr result (self.new ≡ self.old) }
    {
        let observed = with_released(self.alloc, self.last_reported.as_slice(), observed)?;
        self.finish_changed(id, outcome, observed.as_slice())
    }
}
