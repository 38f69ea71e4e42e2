//! Replies of a session as text, so that a test is a list of outcomes with what each is answered.

ghost use Rattle.wl_session.specs.LastReported.{IsByNumber};

use super::planning::add_plan;
use std::alloc::Global;
use wl_codec::{CodecFault, Outcome};
use wl_session::{Session, SessionOf, Upkeep};
use wl_types::{AbortAnswer, Memory, Phase, Reason, Refusal, ReleaseAnswer};

/// Does a step, and adds what it comes to and then the told list. A step is an outcome and what is found of at most two
/// requests in brackets, which is answered by the reply: `release [1 released, 4 granted]`. `aborted` may have a code
/// behind it. With `all: ` before it, all requests are looked at. `plan` and a message is what is planned.
pub fn do_step(
    alloc: Global,
    session: &mut Session,
    came: &mut String,
    step: &str,
) -> Result<(), Memory> {
    match step.strip_prefix("plan ") {
        Some(message) => add_plan(alloc, session, came, message)?,
        None => finish(session, came, step)?,
    }
    write!(came, " {:?}", session.live())?;
    Ok(())
}

/// The reply alone, of a session of either upkeep.
pub fn finish<U: Upkeep>(
    session: &mut SessionOf<U>,
    came: &mut String,
    step: &str,
) -> Result<(), Memory> {
    let (words, looks) = step.split_once(" [").unwrap_or((step, ""));
    let looks = looks.strip_suffix(']').unwrap_or("");
    match (looks.split_once(", "), looks) {
        (None, "") => tell(session, came, words, &[]),
        (None, one) => tell(session, came, words, &[look(one)]),
        (Some((one, two)), _) => tell_two(session, came, words, look(one), look(two)),
    }
}

fn tell<U: Upkeep>(
    session: &mut SessionOf<U>,
    came: &mut String,
    words: &str,
    looks: &[(u64, Phase)],
) -> Result<(), Memory>
    requires { IsByNumber looks.now }
{
    let told = match words.strip_prefix("all: ") {
        Some(words) => session.finish(Some(7), outcome(words), looks),
        None => session.finish_changed(Some(7), outcome(words), looks),
    };
    match told {
        Ok(reply) => Ok(came.push_str(reply.as_str())?),
        Err(Memory) => Err(Memory),
    }
}

fn tell_two<U: Upkeep>(
    session: &mut SessionOf<U>,
    came: &mut String,
    words: &str,
    one: (u64, Phase),
    two: (u64, Phase),
) -> Result<(), Memory> {
    if one.0 < two.0 {
        tell(session, came, words, &[one, two])
    } else {
        // Looks are by number: no list has these.
        Err(Memory)
    }
}

fn outcome(text: &str) -> Outcome {
    let (word, behind) = text.split_once(' ').unwrap_or((text, ""));
    let number = behind.parse::<u64>().ok();
    match word {
        "client" => Outcome::Client(number),
        "request" => Outcome::Request(number.unwrap_or(0)),
        "release" => Outcome::Release(ReleaseAnswer::Released),
        "abort" => Outcome::Abort(AbortAnswer::Done),
        "fault" => Outcome::Fault(CodecFault::BadOp),
        "refusal" => Outcome::Refused(Refusal::NoSuchSignal),
        "close" => Outcome::Closed,
        "aborted" => Outcome::Refused(Refusal::SignalAborted(reason(behind))),
        _ => Outcome::Polled,
    }
}

/// A number and a phase; a granted lock is taken before it is looked at.
fn look(text: &str) -> (u64, Phase) {
    let (number, words) = text.split_once(' ').unwrap_or((text, ""));
    let (word, behind) = words.split_once(' ').unwrap_or((words, ""));
    let phase = match word {
        "granted" => Phase::Taken,
        "unavailable" => Phase::Unavailable,
        "aborted" => Phase::Aborted(reason(behind)),
        "released" => Phase::Released,
        "stolen" => Phase::Stolen,
        _ => Phase::Pending,
    };
    (number.parse::<u64>().unwrap_or(0), phase)
}

/// A timeout where there is no code.
fn reason(code: &str) -> Reason {
    match code.parse::<u16>() {
        Ok(code) => Reason::Code(code),
        Err(_) => Reason::TimeoutError,
    }
}
