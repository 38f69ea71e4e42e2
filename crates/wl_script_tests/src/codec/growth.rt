//! Each growth refused in turn.

ghost use Rattle.std.specs.Prelude.{All, IfOk};
ghost use Rattle.wl_codec.specs.Replies.{IsReported};

use crate::lists::Rows;
use std::alloc::Global;
use std::test::Fail;
use wl_codec::{
    Body, Line, Notice, Notices, Outcome, Reading, WireReply, read_line, read_message, write_reply,
};
use wl_test_support::fail_refused;
use wl_types::{Memory, Mode, Phase};

const LINE: &[u8] =
    b"{\"agent\":\"a\",\"id\":1,\"name\":\"db\",\"op\":\"request\",\"options\":{\"mode\":\"shared\"}}";

const TEXT: &str =
    "{\"id\":1,\"notices\":[{\"phase\":\"granted\",\"request\":1}],\"ok\":{\"request\":1}}";

fn is_read(line: &Line) -> bool {
    let Line::Good(agent, message) = line else {
        return false;
    };
    let Body::Request(ask) = &message.body else {
        return false;
    };
    agent.as_str() == "a" && ask.name.as_str() == "db" && ask.mode == Mode::Shared
}

fn is_good(reading: &Reading) -> bool {
    matches!(reading, Reading::Good(_))
}

/// A request that was granted.
fn make_granted(alloc: Global) -> Result<WireReply, Memory>
    ensures { IfOk result (λ reply. All (λ n. IsReported n.phase) reply.notices) }
{
    let mut notices = Notices::new(alloc);
    notices.push(Notice {
        request: 1,
        phase: Phase::Taken,
    })?;
    Ok(WireReply {
        id: Some(1),
        notices,
        outcome: Outcome::Request(1),
    })
}

/// Whether a line or a message is read as it is to, or else the reply is written so.
fn is_right(alloc: Global, rows: Rows, reply: &WireReply) -> Result<bool, Memory>
    requires { All (λ n. IsReported n.phase) reply.now.notices }
{
    match rows {
        Rows::Lines => Ok(is_read(&read_line(alloc, LINE)?)),
        Rows::Messages => Ok(is_good(&read_message(alloc, LINE)?)),
        _ => Ok(write_reply(alloc, reply)?.as_str() == TEXT),
    }
}

/// A line or a message that is refused memory is no fault, and a reply no shorter text.
fn try_rows(alloc: Global, rows: Rows, reply: &WireReply) -> Result<(), Fail>
    requires { All (λ n. IsReported n.phase) reply.now.notices }
{
    match is_right(alloc, rows, reply) {
        Ok(true) => Ok(()),
        Ok(false) => fail_refused(false),
        Err(Memory) => fail_refused(is_right(alloc, rows, reply)?),
    }
}

fn try_all(alloc: Global, reply: &WireReply) -> Result<(), Fail>
    requires { All (λ n. IsReported n.phase) reply.now.notices }
{
    try_rows(alloc, Rows::Lines, reply)?;
    try_rows(alloc, Rows::Messages, reply)?;
    try_rows(alloc, Rows::Replies, reply)
}

#[test]
fn a_refused_growth_is_no_fault(rt: HostRuntime) -> Result<(), Fail> {
    try_all(rt.alloc(), &make_granted(rt.alloc())?)
}
