//! What an outcome does to a session.

ghost use Rattle.std.specs.Prelude.{◌≡◌};
ghost use Rattle.wl_session.specs.Step.{opens, carries_notices};
ghost use Rattle.wl_session.specs.LastReported.{is_new};

use wl_codec::Outcome;

/// Whether the reply of this outcome has notices. Before such a reply, and before no other, the caller takes the
/// grants of the agent's requests and looks at their phases.
pub fn carries_notices(outcome: &Outcome) -> bool
    ensures { result ≡ carries_notices outcome.now }
{
    match outcome {
        Outcome::Signal(_)
        | Outcome::Request(_)
        | Outcome::Release(_)
        | Outcome::Abort(_)
        | Outcome::Active(_)
        | Outcome::Seen(_)
        | Outcome::Polled
        | Outcome::Refused(_) => true,
        Outcome::Client(_)
        | Outcome::Closed
        | Outcome::Fault(_)
        | Outcome::NotOpen
        | Outcome::AlreadyOpen
        | Outcome::BadUrl
        | Outcome::BadBucket => false,
    }
}

/// Whether the session is open after the reply.
pub(crate) fn opens(was: bool, outcome: &Outcome) -> bool
    ensures { result ≡ opens was outcome.now }
{
    match outcome {
        Outcome::Client(_) => true,
        Outcome::Closed => false,
        _ => was,
    }
}

/// Whether the reply answers the request of this number.
pub(crate) fn is_new(outcome: &Outcome, number: u64) -> bool
    ensures { result ≡ is_new outcome.now number }
{
    match outcome {
        Outcome::Request(answered) => *answered == number,
        _ => false,
    }
}
