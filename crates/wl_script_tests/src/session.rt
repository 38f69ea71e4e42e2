//! Whole replies of a session, in the order in which an agent would read them.

pub mod finishing;
mod growth;
mod planning;
mod upkeep;

use crate::lists::{Rows, assert_lists};
use std::test::Fail;
use upkeep::{A_NUMBER_AGAIN, assert_same};
use wl_codec::Outcome;
use wl_session::carries_notices;

/// An agent is told each phase once. The second request waits, and is aborted.
const EACH_PHASE_ONCE: &str =
    r#"all: client 1 [] -> {"id":7,"notices":[],"ok":{"client":"client-1"}} []
all: request 1 [1 granted] -> {"id":7,"notices":[{"phase":"granted","request":1}],"ok":{"request":1}} [(1, Taken)]
all: poll [1 granted] -> {"id":7,"notices":[],"ok":{}} [(1, Taken)]
all: request 2 [1 granted, 2 pending] -> {"id":7,"notices":[],"ok":{"request":2}} [(1, Taken), (2, Pending)]
all: abort [1 granted, 2 aborted] -> {"id":7,"notices":[{"phase":"aborted","reason":"TimeoutError","request":2}],"ok":{"abort":"done"}} [(1, Taken)]
all: release [] -> {"id":7,"notices":[],"ok":{"release":"released"}} []
all: close [] -> {"id":7,"notices":[],"ok":{}} []
"#;

/// An agent is told the codes of aborts: a notice has the code of its own request.
const CODES_ARE_TOLD: &str = r#"client 1 [] -> {"id":7,"notices":[],"ok":{"client":"client-1"}} []
request 1 [1 pending] -> {"id":7,"notices":[],"ok":{"request":1}} [(1, Pending)]
request 2 [2 pending] -> {"id":7,"notices":[],"ok":{"request":2}} [(1, Pending), (2, Pending)]
abort [1 aborted 0, 2 aborted 65535] -> {"id":7,"notices":[{"phase":"aborted","reason":0,"request":1},{"phase":"aborted","reason":65535,"request":2}],"ok":{"abort":"done"}} []
poll [] -> {"id":7,"notices":[],"ok":{}} []
aborted 7 [] -> {"error":{"name":"AbortCode","reason":7,"rule":"signal-aborted"},"id":7,"notices":[]} []
"#;

/// Only changed requests need a look. The second request and the sixth wait.
const CHANGES_ALONE: &str = r#"client 1 [] -> {"id":7,"notices":[],"ok":{"client":"client-1"}} []
request 1 [1 granted] -> {"id":7,"notices":[{"phase":"granted","request":1}],"ok":{"request":1}} [(1, Taken)]
request 4 [4 pending] -> {"id":7,"notices":[],"ok":{"request":4}} [(1, Taken), (4, Pending)]
request 6 [6 pending] -> {"id":7,"notices":[],"ok":{"request":6}} [(1, Taken), (4, Pending), (6, Pending)]
release [1 released, 4 granted] -> {"id":7,"notices":[{"phase":"granted","request":4}],"ok":{"release":"released"}} [(4, Taken), (6, Pending)]
request 7 [4 stolen, 7 unavailable] -> {"id":7,"notices":[{"phase":"stolen","request":4},{"phase":"unavailable","request":7}],"ok":{"request":7}} [(6, Pending)]
"#;

/// A grant that was stolen untold tells the end alone. The second request is granted and stolen between two replies.
const STOLEN_UNTOLD: &str = r#"client 1 [] -> {"id":7,"notices":[],"ok":{"client":"client-1"}} []
request 1 [1 granted] -> {"id":7,"notices":[{"phase":"granted","request":1}],"ok":{"request":1}} [(1, Taken)]
request 2 [2 pending] -> {"id":7,"notices":[],"ok":{"request":2}} [(1, Taken), (2, Pending)]
poll [2 stolen] -> {"id":7,"notices":[{"phase":"stolen","request":2}],"ok":{}} [(1, Taken)]
"#;

/// A fault tells nothing and keeps the list. A refused command's reply tells the news that a fault's didn't.
const A_FAULT: &str = r#"client 1 [] -> {"id":7,"notices":[],"ok":{"client":"client-1"}} []
request 1 [1 granted] -> {"id":7,"notices":[{"phase":"granted","request":1}],"ok":{"request":1}} [(1, Taken)]
fault [1 stolen] -> {"error":{"name":"BadOp","rule":"op"},"id":7,"notices":[]} [(1, Taken)]
refusal [1 stolen] -> {"error":{"name":"NoSuch","rule":"signal"},"id":7,"notices":[{"phase":"stolen","request":1}]} []
"#;

/// A session passes on what its state allows. What it plans to do, with the id of the reply, before it is open, while
/// it is and when it is closed.
const PLANS: &str = r#"plan {"id":7,"op":"poll"} -> Some(7) NotOpen []
plan {"id":1,"kind":"window","op":"open","url":"https://a.test/"} -> Some(1) opens a window of a.test []
plan {"id":8,"op":"peek"} -> Some(8) BadOp []
plan {"op":"poll"} -> None BadId []
client none [] -> {"id":7,"notices":[],"ok":{"client":null}} []
plan {"id":1,"kind":"window","op":"open","url":"https://a.test/"} -> Some(1) AlreadyOpen []
plan {"id":7,"op":"poll"} -> Some(7) polls []
close [] -> {"id":7,"notices":[],"ok":{}} []
plan {"id":7,"op":"poll"} -> Some(7) NotOpen []
"#;

#[test]
fn a_session_tells_what_is_new(rt: HostRuntime) -> Result<(), Fail> {
    assert_lists(
        &rt,
        &rt,
        Rows::Session,
        &[
            EACH_PHASE_ONCE,
            CODES_ARE_TOLD,
            CHANGES_ALONE,
            STOLEN_UNTOLD,
            A_FAULT,
            PLANS,
        ],
    )?;
    assert_lists(&rt, &rt, Rows::AtOnce, &[A_NUMBER_AGAIN])?;
    assert_lists(&rt, &rt, Rows::InTime, &[A_NUMBER_AGAIN])?;
    Ok(())
}

#[test]
fn ends_that_stay_are_not_told_again(rt: HostRuntime) -> Result<(), Fail> {
    assert_same(&rt, rt.alloc())?;
    Ok(())
}

#[test]
fn replies_that_tell(rt: HostRuntime) {
    assert!(rt; carries_notices(&Outcome::Polled) && !carries_notices(&Outcome::Closed));
}
