//! What a session plans to do with a message, as text.

use std::alloc::Global;
use wl_codec::{Body, CodecFault, Outcome, read_message};
use wl_session::{Action, Plan, Session};
use wl_types::{Kind, Memory};

/// Adds the id that the message's reply has, and what is to be done.
pub fn add_plan(
    alloc: Global,
    session: &Session,
    came: &mut String,
    message: &str,
) -> Result<(), Memory> {
    let reading = read_message(alloc, message.as_bytes())?;
    show_plan(came, &session.plan(reading))
}

fn show_plan(came: &mut String, plan: &Plan) -> Result<(), Memory> {
    write!(came, "{:?} {}", plan.id, show_action(&plan.action))?;
    Ok(())
}

fn show_action(action: &Action) -> &'static str {
    match action {
        Action::Act(body) => show_act(body),
        Action::Answer(Outcome::NotOpen) => "NotOpen",
        Action::Answer(Outcome::AlreadyOpen) => "AlreadyOpen",
        Action::Answer(Outcome::Fault(CodecFault::BadOp)) => "BadOp",
        Action::Answer(Outcome::Fault(CodecFault::BadId)) => "BadId",
        _ => "another answer",
    }
}

fn show_act(body: &Body) -> &'static str {
    match body {
        Body::Enter { url, kind, bucket } => show_enter(url.as_str(), *kind, bucket.as_str()),
        Body::Poll => "polls",
        _ => "another act",
    }
}

fn show_enter(url: &str, kind: Kind, bucket: &str) -> &'static str {
    if kind == Kind::Window && url == "https://a.test/" && bucket == "default" {
        "opens a window of a.test"
    } else {
        "opens something else"
    }
}
