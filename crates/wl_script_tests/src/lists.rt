//! Lists of rows, each with what is to come of it.
//!
//! A row is a call, an arrow and its answer: `release [] -> {"id":7,"notices":[],"ok":{"release":"released"}}`. What
//! calls a list has depends on what its rows are.

use crate::codec::{bytes, messages, scratch, writing};
use crate::script::runs;
use crate::session::finishing;
use crate::{keys, realm};
use std::alloc::Global;
use std::process::Abort;
use wl_codec::Scratch;
use wl_core::{PlainCore, Realm};
use wl_session::{InTime, Session, SessionOf};
use wl_types::Memory;

/// What the rows of a list are.
#[derive(Clone, Copy, Drop)]
pub enum Rows {
    /// Messages, as text.
    Messages,
    /// Lines of a script.
    Lines,
    /// Names of bytes that are read as both (`codec::bytes`).
    Bytes,
    /// Messages and lines that are read with one scratch (`codec::scratch`).
    Scratch,
    /// Names of replies that are written (`codec::writing`).
    Replies,
    /// Outcomes that a session finishes, and messages that it plans (`session::finishing`).
    Session,
    /// Outcomes, with the replies alone, of a session that drops ends at once.
    AtOnce,
    /// The same of one that drops them in time.
    InTime,
    /// Calls of a realm.
    Realm,
    /// What is asked of URLs and buckets (`keys`).
    Keys,
    /// Runs and audits of scripts (`script::runs`).
    Runs,
}

/// What the rows of a list go on with.
#[derive(Drop)]
pub struct Scene {
    pub alloc: Global,
    pub scratch: Scratch,
    pub session: Session,
    pub in_time: SessionOf<InTime>,
    pub realm: Realm<PlainCore>,
}

impl Scene {
    pub fn new(alloc: Global) -> Scene {
        Scene {
            alloc,
            scratch: Scratch::new(alloc),
            session: Session::new(alloc),
            in_time: SessionOf::new(alloc),
            realm: Realm::new(alloc),
        }
    }
}

/// Wants each list to come out as it is written, each in a new scene. The test's own handle is passed twice, since only
/// what is generic in it may end the test, and costs the checker the more.
pub fn assert_lists<R: Abort>(
    test: &R,
    rt: &HostRuntime,
    rows: Rows,
    lists: &[&str],
) -> Result<(), Memory> {
    for list in lists {
        assert_came(test, do_list(rt, rows, list)?.as_str(), list);
    }
    Ok(())
}

/// Wants a text to have come out as another is.
pub fn assert_came<R: Abort>(test: &R, came: &str, wanted: &str) {
    assert_eq!(test; came, wanted);
}

/// A list as it came out.
fn do_list(rt: &HostRuntime, rows: Rows, list: &str) -> Result<String, Memory> {
    let mut came = String::new(rt.alloc());
    do_rows(rt, &mut Scene::new(rt.alloc()), &mut came, rows, list)?;
    Ok(came)
}

fn do_rows(
    rt: &HostRuntime,
    scene: &mut Scene,
    came: &mut String,
    rows: Rows,
    list: &str,
) -> Result<(), Memory> {
    for row in list.lines() {
        let (call, _) = row.split_once(" -> ").unwrap_or((row, ""));
        write!(came, "{call} -> ")?;
        do_row(rt, scene, came, rows, call)?;
        came.push_str("\n")?;
    }
    Ok(())
}

fn do_row(
    rt: &HostRuntime,
    scene: &mut Scene,
    came: &mut String,
    rows: Rows,
    call: &str,
) -> Result<(), Memory> {
    let alloc = scene.alloc;
    match rows {
        Rows::Messages => messages::add_message(alloc, came, call.as_bytes()),
        Rows::Lines => messages::add_line(alloc, came, call.as_bytes()),
        Rows::Bytes => bytes::add_both_of(alloc, came, call),
        Rows::Scratch => scratch::add_read(alloc, &mut scene.scratch, came, call),
        Rows::Replies => writing::add_written(alloc, came, call),
        Rows::Session => finishing::do_step(alloc, &mut scene.session, came, call),
        Rows::AtOnce => finishing::finish(&mut scene.session, came, call),
        Rows::InTime => finishing::finish(&mut scene.in_time, came, call),
        Rows::Realm => realm::do_call(scene, came, call),
        Rows::Keys => keys::do_call(alloc, came, call),
        Rows::Runs => runs::do_call(rt, came, call),
    }
}

/// The first word of a call, and what is behind it.
pub fn part(call: &str) -> (&str, &str) {
    call.split_once(' ').unwrap_or((call, ""))
}
