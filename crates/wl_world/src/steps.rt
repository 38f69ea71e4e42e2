//! An agent's operation on a core, and what it makes of the requests.

ghost use Rattle.std.specs.Prelude.{◌≡◌, List, [], IfOk, OnErr, OnOk};
ghost use Rattle.wl_world.specs.declared.requests.Request.{Request};
ghost use Rattle.wl_world.specs.Origins.{command_of};
ghost use Rattle.wl_world.specs.Requests.{with_changes, after_answer};
ghost use Rattle.wl_world.specs.inner.Requests.{IsRising};
ghost use Rattle.wl_world.specs.inner.AgentIndex.{IsNewest};
ghost use Rattle.wl_world.specs.inner.Views.{fresh, Operates, Records, AnswersRefusal};

use crate::requests::Requests;
use wl_codec::{Body, Outcome};
use wl_core::LockCore;
use wl_types::{Memory, Refusal};

/// Has the core do what an agent asks for.
pub(crate) fn operate<C: LockCore>(
    core: &mut C,
    agent: u64,
    body: &Body,
) -> Result<Outcome, Refusal>
    ensures done { Operates (C.state core.old) agent body.now (C.state core.new) (C.recent core.new) result }
    ensures entries { Records (C.state core.old) (command_of agent body.now)
        (C.entries core.old) (C.entries core.new) result }
    ensures newest { IfOk result (λ outcome. (requests : List Request)
        → IsRising 0 (C.state core.old).next.request requests → IsNewest outcome requests) }
{
    match body {
        Body::Enter { .. } => Ok(Outcome::AlreadyOpen),
        Body::Signal => Ok(Outcome::Signal(core.new_signal(agent)?)),
        Body::Request(ask) => Ok(Outcome::Request(core.request(agent, ask)?)),
        Body::Release(id) => Ok(Outcome::Release(core.release(agent, *id))),
        Body::Abort(signal, reason) => Ok(Outcome::Abort(core.abort(agent, *signal, *reason)?)),
        Body::Active(active) => {
            core.set_active(agent, *active)?;
            Ok(Outcome::Active(*active))
        }
        Body::Query => Ok(Outcome::Seen(core.snapshot(agent)?)),
        Body::Poll => Ok(Outcome::Polled),
        Body::Close => {
            core.terminate(agent)?;
            Ok(Outcome::Closed)
        }
    }
}

/// A refusal for want of memory is none of the machine.
pub(crate) fn refusal_outcome(refusal: Refusal) -> Result<Outcome, Memory>
    ensures { AnswersRefusal refusal result }
{
    match refusal {
        Refusal::Memory => Err(Memory),
        other => Ok(Outcome::Refused(other)),
    }
}

/// The changes of the operation find their requests. After a want of memory no request is left.
pub(crate) fn accept<C: LockCore>(
    core: &C,
    requests: &mut Requests,
    agent: u64,
    outcome: &Outcome,
) -> Result<(), Memory>
    requires { IsNewest outcome.now requests.old }
    ensures ok { OnOk result (requests.new
        ≡ with_changes (fresh outcome.now (C.recent core.now)) (after_answer agent outcome.now requests.old)) }
    ensures err { OnErr result (requests.new ≡ []) }
{
    match outcome {
        Outcome::Request(number) => requests.add(agent, *number, core.changes()),
        Outcome::Closed => {
            requests.close(agent);
            requests.note(core.changes())
        }
        Outcome::Seen(_) | Outcome::Polled | Outcome::AlreadyOpen => Ok(()),
        _ => requests.note(core.changes()),
    }
}
