//! Each growth refused in turn.

ghost use Rattle.std.specs.Prelude.{◌<◌};

use std::alloc::Global;
use std::test::Fail;
use wl_codec::Outcome;
use wl_session::{InTime, Session, SessionOf};
use wl_test_support::fail_refused;
use wl_types::Phase;

/// By a look at all requests, or at those that changed.
fn is_told(session: &mut Session, at_all: bool) -> bool {
    let looks = [(1, Phase::Taken)];
    let finished = if at_all {
        session.finish(Some(2), Outcome::Request(1), &looks)
    } else {
        session.finish_changed(Some(2), Outcome::Request(1), &looks)
    };
    let Ok(text) = finished else {
        return false;
    };
    text.as_str()
        == "{\"id\":2,\"notices\":[{\"phase\":\"granted\",\"request\":1}],\"ok\":{\"request\":1}}"
        && session.live() == looks.as_slice()
}

/// A reply that is refused memory tells nothing, and is whole when it is asked again.
fn try_reply(alloc: Global, at_all: bool) -> Result<(), Fail> {
    let mut session = Session::new(alloc);
    if is_told(&mut session, at_all) {
        return Ok(());
    }
    fail_refused(session.live().is_empty() && is_told(&mut session, at_all))
}

#[test]
fn a_refused_growth_tells_nothing(rt: HostRuntime) -> Result<(), Fail> {
    try_reply(rt.alloc(), true)?;
    try_reply(rt.alloc(), false)
}

/// A reply without notices, since the first request was told as granted and the other's phase is no news.
fn is_quiet(session: &mut SessionOf<InTime>, number: u64, phase: Phase) -> bool
    requires { 1 < number }
{
    let looks = [(1, Phase::Taken), (number, phase)];
    match session.finish_changed(Some(3), Outcome::Polled, &looks) {
        Ok(text) => text.as_str() == "{\"id\":3,\"notices\":[],\"ok\":{}}",
        Err(_) => false,
    }
}

fn try_quiet(session: &mut SessionOf<InTime>, number: u64, phase: Phase) -> Result<(), Fail>
    requires { 1 < number }
{
    if is_quiet(session, number, phase) {
        return Ok(());
    }
    fail_refused(is_quiet(session, number, phase))
}

/// The same where ends stay, over a list that is full a few times, with ends and without.
fn try_in_time(session: &mut SessionOf<InTime>) -> Result<(), Fail> {
    session.finish_changed(Some(2), Outcome::Request(1), &[(1, Phase::Taken)])?;
    for number in 2..10 {
        try_quiet(session, number, Phase::Pending)?;
        if number % 2 == 0 {
            try_quiet(session, number, Phase::Released)?;
        }
    }
    Ok(())
}

#[test]
fn a_refused_growth_forgets_nothing_told(rt: HostRuntime) -> Result<(), Fail> {
    try_in_time(&mut SessionOf::<InTime>::new(rt.alloc()))
}
