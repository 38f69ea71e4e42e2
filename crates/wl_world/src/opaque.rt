//! Agents of opaque origins, which have no manager.

ghost use Rattle.std.specs.Prelude.{◌≡◌, IfOk, Some, string_bytes};
ghost use Rattle.wl_codec.specs.Replies.{reply_text};
ghost use Rattle.wl_world.specs.Labels.{active_after, closes, opaque_outcome, plain};

use crate::answer::{Answer, closes, plain_text};
use std::alloc::Global;
use wl_codec::{Body, Outcome};
use wl_machine::{activity, no_storage};
use wl_types::{Kind, Memory, Refusal, ReleaseAnswer};

/// What an opaque agent is answered.
fn opaque_outcome(kind: Kind, active: bool, body: &Body) -> Outcome
    ensures { result ≡ opaque_outcome kind active body.now }
{
    match body {
        Body::Enter { .. } => Outcome::AlreadyOpen,
        Body::Signal => Outcome::Refused(Refusal::Security),
        Body::Request(_) | Body::Query => Outcome::Refused(no_storage(kind, active)),
        Body::Release(_) => Outcome::Release(ReleaseAnswer::NotHeld),
        Body::Abort(_, _) => Outcome::Refused(Refusal::NoSuchSignal),
        Body::Active(wanted) => match activity(kind) {
            Ok(()) => Outcome::Active(*wanted),
            Err(refusal) => Outcome::Refused(refusal),
        },
        Body::Poll => Outcome::Polled,
        Body::Close => Outcome::Closed,
    }
}

/// Whether the agent is active after this answer.
fn active_after(active: bool, outcome: &Outcome) -> bool
    ensures { result ≡ active_after active outcome.now }
{
    match outcome {
        Outcome::Active(now) => *now,
        _ => active,
    }
}

/// A line of an agent of an opaque origin.
pub(crate) fn serve_opaque(
    alloc: Global,
    kind: Kind,
    active: &mut bool,
    id: u64,
    body: &Body,
) -> Result<Answer, Memory>
    ensures text { IfOk result (λ answer. string_bytes answer.text
        ≡ reply_text (plain (Some id) (opaque_outcome kind active.old body.now))) }
    ensures closed { IfOk result (λ answer. answer.closed ≡ closes (opaque_outcome kind active.old body.now)) }
    ensures active { active.new ≡ active_after active.old (opaque_outcome kind active.old body.now) }
{
    let outcome = opaque_outcome(kind, *active, body);
    *active = active_after(*active, &outcome);
    let closed = closes(&outcome);
    let text = plain_text(alloc, Some(id), outcome)?;
    Ok(Answer { text, closed })
}
