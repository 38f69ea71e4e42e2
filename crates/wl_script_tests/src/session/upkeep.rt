//! Where ends leave in time, each reply is the one that is given where they leave at once.

ghost use Rattle.std.specs.Prelude.{◌+◌, ◌<◌, ◌≤◌};
ghost use Rattle.wl_session.specs.LastReported.{IsByNumber};

use crate::lists::{Scene, assert_came};
use std::alloc::Global;
use std::process::Abort;
use wl_codec::Outcome;
use wl_session::{AtOnce, InTime, SessionOf, Upkeep};
use wl_types::{Memory, Phase};

/// Adds the reply to a request to the text.
fn request<U: Upkeep>(
    session: &mut SessionOf<U>,
    text: &mut String,
    number: u64,
    looks: &[(u64, Phase)],
) -> Result<(), Memory>
    requires { IsByNumber looks.now }
{
    match session.finish_changed(Some(7), Outcome::Request(number), looks) {
        Ok(reply) => Ok(text.push_str(reply.as_str())?),
        Err(Memory) => Err(Memory),
    }
}

/// The request that ends as this one comes: of each two, the later one ends first.
fn earlier_of_two(number: u64) -> u64
    requires { 15 < number }
    ensures { result + 14 ≤ number }
{
    if number % 2 == 0 {
        number - 14
    } else {
        number - 16
    }
}

/// Three hundred requests, of which fifteen are live at a time: what ended fills the list again and again.
fn request_often<U: Upkeep>(session: &mut SessionOf<U>, text: &mut String) -> Result<(), Memory> {
    for number in 1..16 {
        request(session, text, number, &[(number, Phase::Taken)])?;
    }
    for number in 16..301 {
        let left = (earlier_of_two(number), Phase::Stolen);
        let last = (number - 1, Phase::Taken);
        request(session, text, number, &[left, last, (number, Phase::Taken)])?;
    }
    Ok(())
}

/// A poll that finds three of them as they were, and the last stolen.
fn poll<U: Upkeep>(session: &mut SessionOf<U>, text: &mut String) -> Result<(), Memory> {
    let looks = [
        (285, Phase::Taken),
        (287, Phase::Taken),
        (299, Phase::Taken),
        (300, Phase::Stolen),
    ];
    match session.finish_changed(Some(7), Outcome::Polled, &looks) {
        Ok(reply) => Ok(text.push_str(reply.as_str())?),
        Err(Memory) => Err(Memory),
    }
}

/// Adds all these replies.
fn add_many<U: Upkeep>(session: &mut SessionOf<U>, text: &mut String) -> Result<(), Memory> {
    request_often(session, text)?;
    poll(session, text)
}

/// Adds them of both upkeeps.
fn add_both(scene: &mut Scene, at_once: &mut String, in_time: &mut String) -> Result<(), Memory> {
    add_many(&mut scene.session, at_once)?;
    add_many(&mut scene.in_time, in_time)
}

const LAST: &str = "{\"id\":7,\"notices\":[{\"phase\":\"stolen\",\"request\":300}],\"ok\":{}}";

/// Wants both to tell the same.
pub fn assert_same<R: Abort>(test: &R, alloc: Global) -> Result<(), Memory> {
    let mut at_once = String::new(alloc);
    let mut in_time = String::new(alloc);
    add_both(&mut Scene::new(alloc), &mut at_once, &mut in_time)?;
    assert_both(test, at_once.as_str(), in_time.as_str());
    Ok(())
}

fn assert_both<R: Abort>(test: &R, at_once: &str, in_time: &str) {
    assert_came(test, at_once, in_time);
    assert_came(test, last_of(in_time), LAST);
}

/// The last reply; the whole text where it isn't at its end.
fn last_of(text: &str) -> &str {
    if text.ends_with(LAST) { LAST } else { text }
}

/// A number starts anew after its end.
pub const A_NUMBER_AGAIN: &str =
    r#"request 1 [1 granted] -> {"id":7,"notices":[{"phase":"granted","request":1}],"ok":{"request":1}}
request 2 [1 released, 2 granted] -> {"id":7,"notices":[{"phase":"granted","request":2}],"ok":{"request":2}}
poll [2 stolen] -> {"id":7,"notices":[{"phase":"stolen","request":2}],"ok":{}}
request 1 [1 granted, 2 granted] -> {"id":7,"notices":[{"phase":"granted","request":1},{"phase":"granted","request":2}],"ok":{"request":1}}
poll [1 granted, 2 granted] -> {"id":7,"notices":[],"ok":{}}
"#;
