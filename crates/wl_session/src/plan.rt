//! What is to be done for a message.

ghost use Rattle.std.specs.Prelude.{◌≡◌};
ghost use Rattle.wl_session.specs.Planned.{action_for, plan_for};

use wl_codec::{Body, Outcome, Reading};

/// What a message asks of the caller.
#[derive(Drop)]
pub enum Action {
    /// To do this, and to make the reply from its outcome.
    Act(Body),
    /// To do nothing: this is the outcome. It is a fault, `NotOpen` or `AlreadyOpen`.
    Answer(Outcome),
}

/// What is to be done for a message, and the id that its reply has.
#[derive(Drop)]
pub struct Plan {
    /// None where no id could be read: the reply's id is null then.
    pub id: Option<u64>,
    pub action: Action,
}

fn action_for(is_open: bool, body: Body) -> Action
    ensures { result ≡ action_for is_open body }
{
    match body {
        Body::Enter { url, kind, bucket } => {
            if is_open {
                Action::Answer(Outcome::AlreadyOpen)
            } else {
                Action::Act(Body::Enter { url, kind, bucket })
            }
        }
        other => {
            if is_open {
                Action::Act(other)
            } else {
                Action::Answer(Outcome::NotOpen)
            }
        }
    }
}

pub(crate) fn plan_for(is_open: bool, reading: Reading) -> Plan
    ensures { result ≡ plan_for is_open reading }
{
    match reading {
        Reading::Bad(id, fault) => Plan {
            id,
            action: Action::Answer(Outcome::Fault(fault)),
        },
        Reading::Good(message) => Plan {
            id: Some(message.id),
            action: action_for(is_open, message.body),
        },
    }
}
