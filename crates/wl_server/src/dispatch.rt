//! Does what a message asks for.

ghost use Rattle.std.specs.Prelude.{ℕ, List, IfOk};
ghost use Rattle.wl_codec.specs.declared.message.Body.{Body};
ghost use Rattle.wl_codec.specs.declared.message.Body.TheVariants.{Enter, Request};
ghost use Rattle.wl_types.specs.declared.words.Kind.{Kind};
ghost use Rattle.wl_server.specs.Peers.{IsOutcome, IsOutcomeOf};

use crate::open_client::OpenClient;
use crate::opener::{NoAnswer, NotOpened, Opener};
use crate::requests::Requests;
use std::sync::Wait;
use wl_codec::{Body, Outcome};
use wl_service::{Client, OpenFault};
use wl_session::Action;
use wl_types::{Ask, Kind, Memory, Refusal, ReleaseAnswer, Text};

/// The outcome of a refused operation. No reply tells of want of memory.
fn refusal_outcome(refusal: Refusal) -> Result<Outcome, Memory>
    ensures { IfOk result (λ outcome. (body : Body) → IsOutcomeOf body outcome) }
{
    match refusal {
        Refusal::Memory => Err(Memory),
        other => Ok(Outcome::Refused(other)),
    }
}

fn open_agent<R: Wait, O: Opener>(
    rt: &R,
    opener: &O,
    open_client: &mut Option<OpenClient>,
    url: &str,
    bucket: Text,
    kind: Kind,
) -> Result<Outcome, NoAnswer>
    ensures { IfOk result (λ outcome. (text name : List ℕ) → IsOutcomeOf (Enter text kind name) outcome) }
{
    match opener.open(rt, url, bucket, kind) {
        Ok(opened) => {
            let number = opened.client();
            // An open session opens no second agent. If it did, its first would end.
            if let Some(before) = open_client.replace(OpenClient::new(opened)) {
                let _ = before.end(rt, opener);
            }
            Ok(Outcome::Client(number))
        }
        Err(NotOpened::Forbidden) => Err(NoAnswer::Forbidden),
        Err(NotOpened::Fault(fault)) => not_opened(fault),
    }
}

/// The outcome of an `open` for which the service opened no client.
fn not_opened(fault: OpenFault) -> Result<Outcome, NoAnswer>
    ensures { IfOk result (λ outcome. (text name : List ℕ) (kind : Kind) → IsOutcomeOf (Enter text kind name) outcome) }
{
    match fault {
        OpenFault::BadUrl => Ok(Outcome::BadUrl),
        OpenFault::BadBucket => Ok(Outcome::BadBucket),
        OpenFault::TooManyAgents => Ok(Outcome::Refused(Refusal::TooManyAgents)),
        OpenFault::NumbersSpent => Ok(Outcome::Refused(Refusal::NumbersSpent)),
        OpenFault::TooManyManagers => Err(NoAnswer::TooManyManagers),
        OpenFault::Memory => Err(NoAnswer::Memory),
    }
}

fn request<R: Wait>(
    rt: &R,
    client: &mut Client,
    requests: &mut Requests,
    ask: &Ask,
) -> Result<Outcome, Memory>
    ensures { IfOk result (λ outcome. IsOutcomeOf (Request ask.now) outcome) }
{
    match client.request(rt, ask) {
        Ok(ticket) => {
            let number = ticket.number();
            requests.add(ticket)?;
            Ok(Outcome::Request(number))
        }
        Err(refusal) => refusal_outcome(refusal),
    }
}

/// Releases a request. One whose end was reported, or of another agent, isn't there, and so isn't held.
fn release<R: Wait>(
    rt: &R,
    client: &mut Client,
    requests: &mut Requests,
    number: u64,
) -> ReleaseAnswer {
    match requests.get_mut(number) {
        Some(request) => client.release(rt, &mut request.ticket),
        None => ReleaseAnswer::NotHeld,
    }
}

/// Does what an agent that opened asks for, but for its end. What changes for the agent meanwhile is told with the
/// reply, since each of these outcomes carries notices: no bell rings for it.
fn operate<R: Wait>(
    rt: &R,
    client: &mut Client,
    requests: &mut Requests,
    body: Body,
) -> Result<Outcome, Memory>
    ensures { IfOk result (λ outcome. IsOutcomeOf body outcome) }
{
    client.silence_bell();
    match body {
        Body::Signal => match client.new_signal(rt) {
            Ok(number) => Ok(Outcome::Signal(number)),
            Err(refusal) => refusal_outcome(refusal),
        },
        Body::Request(ask) => request(rt, client, requests, &ask),
        Body::Release(number) => Ok(Outcome::Release(release(rt, client, requests, number))),
        Body::Abort(signal, reason) => match client.abort(rt, signal, reason) {
            Ok(answer) => Ok(Outcome::Abort(answer)),
            Err(refusal) => refusal_outcome(refusal),
        },
        Body::Active(active) => match client.set_active(rt, active) {
            Ok(()) => Ok(Outcome::Active(active)),
            Err(refusal) => refusal_outcome(refusal),
        },
        Body::Query => match client.query(rt) {
            Ok(sight) => Ok(Outcome::Seen(sight.snapshot)),
            Err(refusal) => refusal_outcome(refusal),
        },
        Body::Poll => Ok(Outcome::Polled),
        // These are no operations of an open agent: `act` does them.
        Body::Enter { .. } | Body::Close => refusal_outcome(Refusal::NoSuchAgent),
    }
}

/// Does what a message asks for. An agent opens or leaves by it.
fn act<R: Wait, O: Opener>(
    rt: &R,
    opener: &O,
    open_client: &mut Option<OpenClient>,
    requests: &mut Requests,
    body: Body,
) -> Result<Outcome, NoAnswer>
    ensures { IfOk result (λ outcome. IsOutcomeOf body outcome) }
{
    match body {
        Body::Enter { url, kind, bucket } => {
            open_agent(rt, opener, open_client, url.as_str(), bucket, kind)
        }
        Body::Close => {
            // Before its manager may be let go of, which tickets hold.
            requests.clear();
            if let Some(leaving) = open_client.take() {
                let _ = leaving.end(rt, opener);
            }
            Ok(Outcome::Closed)
        }
        other => match open_client {
            Some(open_client) => Ok(operate(rt, open_client.client_mut(), requests, other)?),
            // An open session has a client.
            None => Ok(refusal_outcome(Refusal::NoSuchAgent)?),
        },
    }
}

/// The outcome of what was planned for a message.
pub fn outcome_of<R: Wait, O: Opener>(
    rt: &R,
    opener: &O,
    open_client: &mut Option<OpenClient>,
    requests: &mut Requests,
    action: Action,
) -> Result<Outcome, NoAnswer>
    ensures { IfOk result (λ outcome. IsOutcome action outcome) }
{
    match action {
        Action::Answer(outcome) => Ok(outcome),
        Action::Act(body) => act(rt, opener, open_client, requests, body),
    }
}
