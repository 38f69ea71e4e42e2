//! The texts of replies.

ghost use Rattle.std.specs.Prelude.{All, IfOk};
ghost use Rattle.wl_codec.specs.Replies.{IsReported};

use crate::lists::part;
use std::alloc::Global;
use wl_codec::{CodecFault, Member, Notice, Notices, Outcome, WireReply, write_reply};
use wl_types::{
    AbortAnswer, Infos, LockInfo, Memory, Mode, Name, Phase, Reason, Refusal, ReleaseAnswer,
    Snapshot,
};

/// Each outcome has its text.
pub const ANSWERS: &str = r#"answer 0 -> {"id":6,"notices":[],"ok":{"client":"client-12"}}
answer 1 -> {"id":6,"notices":[],"ok":{"client":null}}
answer 2 -> {"id":6,"notices":[],"ok":{"signal":9007199254740991}}
answer 3 -> {"id":6,"notices":[],"ok":{"request":0}}
answer 4 -> {"id":6,"notices":[],"ok":{"release":"released"}}
answer 5 -> {"id":6,"notices":[],"ok":{"release":"not-held"}}
answer 6 -> {"id":6,"notices":[],"ok":{"abort":"done"}}
answer 7 -> {"id":6,"notices":[],"ok":{"abort":"already-aborted"}}
answer 8 -> {"id":6,"notices":[],"ok":{"active":true}}
answer 9 -> {"id":6,"notices":[],"ok":{"active":false}}
answer 10 -> {"id":6,"notices":[],"ok":{"held":[],"pending":[]}}
answer 11 -> {"id":6,"notices":[],"ok":{}}
answer 12 -> {"id":6,"notices":[],"ok":{}}
"#;

/// The outcomes of these answers, by their place.
fn answer(alloc: Global, place: usize) -> Outcome {
    match place {
        0 => Outcome::Client(Some(12)),
        1 => Outcome::Client(None),
        2 => Outcome::Signal(9007199254740991),
        3 => Outcome::Request(0),
        4 => Outcome::Release(ReleaseAnswer::Released),
        5 => Outcome::Release(ReleaseAnswer::NotHeld),
        6 => Outcome::Abort(AbortAnswer::Done),
        7 => Outcome::Abort(AbortAnswer::AlreadyAborted),
        8 => Outcome::Active(true),
        9 => Outcome::Active(false),
        10 => Outcome::Seen(no_locks(alloc)),
        11 => Outcome::Polled,
        _ => Outcome::Closed,
    }
}

fn no_locks(alloc: Global) -> Snapshot {
    Snapshot {
        held: Infos::new(alloc),
        pending: Infos::new(alloc),
    }
}

/// Each error has its name and its rule.
pub const ERRORS: &str =
    r#"error 0 -> {"error":{"name":"InvalidStateError","rule":"inactive"},"id":null,"notices":[]}
error 1 -> {"error":{"name":"AbortError","rule":"signal-aborted"},"id":null,"notices":[]}
error 2 -> {"error":{"name":"TimeoutError","rule":"signal-aborted"},"id":null,"notices":[]}
error 3 -> {"error":{"name":"AbortCode","reason":0,"rule":"signal-aborted"},"id":null,"notices":[]}
error 4 -> {"error":{"name":"AbortCode","reason":7,"rule":"signal-aborted"},"id":null,"notices":[]}
error 5 -> {"error":{"name":"AbortCode","reason":65535,"rule":"signal-aborted"},"id":null,"notices":[]}
error 6 -> {"error":{"name":"Limit","rule":"name-length"},"id":null,"notices":[]}
error 7 -> {"error":{"name":"BadJson","rule":"json"},"id":null,"notices":[]}
error 8 -> {"error":{"name":"TypeError","rule":"ifAvailable"},"id":null,"notices":[]}
error 9 -> {"error":{"name":"NotOpen","rule":"session"},"id":null,"notices":[]}
error 10 -> {"error":{"name":"AlreadyOpen","rule":"session"},"id":null,"notices":[]}
error 11 -> {"error":{"name":"BadUrl","rule":"url"},"id":null,"notices":[]}
error 12 -> {"error":{"name":"BadBucket","rule":"bucket"},"id":null,"notices":[]}
"#;

/// What a request is answered whose signal was aborted for this reason.
fn abort_outcome(reason: Reason) -> Outcome {
    Outcome::Refused(Refusal::SignalAborted(reason))
}

/// The outcomes of these errors, by their place.
fn error(place: usize) -> Outcome {
    match place {
        0 => Outcome::Refused(Refusal::InvalidState),
        1 => abort_outcome(Reason::AbortError),
        2 => abort_outcome(Reason::TimeoutError),
        3 => abort_outcome(Reason::Code(0)),
        4 => abort_outcome(Reason::Code(7)),
        5 => abort_outcome(Reason::Code(65535)),
        6 => Outcome::Refused(Refusal::NameTooLong),
        7 => Outcome::Fault(CodecFault::BadJson),
        8 => Outcome::Fault(CodecFault::TypeError(Member::IfAvailable)),
        9 => Outcome::NotOpen,
        10 => Outcome::AlreadyOpen,
        11 => Outcome::BadUrl,
        _ => Outcome::BadBucket,
    }
}

/// Notices keep their order. Before the text is how many there are.
pub const NOTICES: &str =
    r#"notices -> 6: {"id":2,"notices":[{"phase":"granted","request":3},{"phase":"unavailable","request":1},{"phase":"aborted","reason":"AbortError","request":4},{"phase":"aborted","reason":0,"request":6},{"phase":"aborted","reason":65535,"request":2},{"phase":"stolen","request":5}],"ok":{}}
"#;

fn all_notices(alloc: Global) -> Result<Notices, Memory>
    ensures { IfOk result (λ notices. All (λ n. IsReported n.phase) notices) }
{
    let mut notices = Notices::new(alloc);
    notices.push(Notice {
        request: 3,
        phase: Phase::Taken,
    })?;
    notices.push(Notice {
        request: 1,
        phase: Phase::Unavailable,
    })?;
    notices.push(Notice {
        request: 4,
        phase: Phase::Aborted(Reason::AbortError),
    })?;
    notices.push(Notice {
        request: 6,
        phase: Phase::Aborted(Reason::Code(0)),
    })?;
    notices.push(Notice {
        request: 2,
        phase: Phase::Aborted(Reason::Code(65535)),
    })?;
    notices.push(Notice {
        request: 5,
        phase: Phase::Stolen,
    })?;
    Ok(notices)
}

/// A snapshot shows what is held and what waits.
pub const SEEN: &str =
    r#"three -> {"id":1,"notices":[],"ok":{"held":[{"clientId":"client-1","mode":"exclusive","name":"db"}],"pending":[{"clientId":"client-2","mode":"shared","name":"db"},{"clientId":"client-3","mode":"shared","name":"db"}]}}
"#;

const NAMES: [&str; 8] = [
    "",
    "db/1 'x'",
    "a\"b",
    "a\\b",
    "\u{8}\u{c}\n\r\t",
    "\u{0}\u{1}\u{1f}",
    "\u{7f}",
    "\u{e9}\u{20ac}\u{1f512}\u{2028}",
];

/// Those names by their place: they are escaped only where JSON asks for it.
pub const ESCAPED: &str = "\
name 0 -> {\"id\":1,\"notices\":[],\"ok\":{\"held\":[{\"clientId\":\"client-1\",\"mode\":\"exclusive\",\"name\":\"\"}],\"pending\":[]}}
name 1 -> {\"id\":1,\"notices\":[],\"ok\":{\"held\":[{\"clientId\":\"client-1\",\"mode\":\"exclusive\",\"name\":\"db/1 'x'\"}],\"pending\":[]}}
name 2 -> {\"id\":1,\"notices\":[],\"ok\":{\"held\":[{\"clientId\":\"client-1\",\"mode\":\"exclusive\",\"name\":\"a\\\"b\"}],\"pending\":[]}}
name 3 -> {\"id\":1,\"notices\":[],\"ok\":{\"held\":[{\"clientId\":\"client-1\",\"mode\":\"exclusive\",\"name\":\"a\\\\b\"}],\"pending\":[]}}
name 4 -> {\"id\":1,\"notices\":[],\"ok\":{\"held\":[{\"clientId\":\"client-1\",\"mode\":\"exclusive\",\"name\":\"\\b\\f\\n\\r\\t\"}],\"pending\":[]}}
name 5 -> {\"id\":1,\"notices\":[],\"ok\":{\"held\":[{\"clientId\":\"client-1\",\"mode\":\"exclusive\",\"name\":\"\\u0000\\u0001\\u001f\"}],\"pending\":[]}}
name 6 -> {\"id\":1,\"notices\":[],\"ok\":{\"held\":[{\"clientId\":\"client-1\",\"mode\":\"exclusive\",\"name\":\"\u{7f}\"}],\"pending\":[]}}
name 7 -> {\"id\":1,\"notices\":[],\"ok\":{\"held\":[{\"clientId\":\"client-1\",\"mode\":\"exclusive\",\"name\":\"\u{e9}\u{20ac}\u{1f512}\u{2028}\"}],\"pending\":[]}}
";

/// Adds the text of a reply that a call names.
pub fn add_written(alloc: Global, came: &mut String, call: &str) -> Result<(), Memory> {
    let (word, place) = part(call);
    let place = place.parse::<usize>().unwrap_or(0);
    match word {
        "answer" => add_plain(alloc, came, Some(6), answer(alloc, place)),
        "error" => add_plain(alloc, came, None, error(place)),
        "notices" => add_notices(alloc, came),
        "three" => add_held(alloc, came, "db", 3),
        _ => add_held(
            alloc,
            came,
            NAMES.get(place).copied().unwrap_or("no name"),
            1,
        ),
    }
}

fn add_reply(alloc: Global, came: &mut String, reply: &WireReply) -> Result<(), Memory>
    requires { All (λ n. IsReported n.phase) reply.now.notices }
{
    match write_reply(alloc, reply) {
        Ok(text) => Ok(came.push_str(text.as_str())?),
        Err(Memory) => Err(Memory),
    }
}

/// The text of a reply without notices.
fn add_plain(
    alloc: Global,
    came: &mut String,
    id: Option<u64>,
    outcome: Outcome,
) -> Result<(), Memory> {
    let reply = WireReply {
        id,
        notices: Notices::new(alloc),
        outcome,
    };
    add_reply(alloc, came, &reply)
}

fn add_notices(alloc: Global, came: &mut String) -> Result<(), Memory> {
    let reply = WireReply {
        id: Some(2),
        notices: all_notices(alloc)?,
        outcome: Outcome::Polled,
    };
    add_counted(alloc, came, &reply)
}

fn add_counted(alloc: Global, came: &mut String, reply: &WireReply) -> Result<(), Memory>
    requires { All (λ n. IsReported n.phase) reply.now.notices }
{
    write!(came, "{}: ", reply.notices.as_slice().len())?;
    add_reply(alloc, came, reply)
}

/// Adds a lock or a request of this name.
fn add_info(
    alloc: Global,
    infos: &mut Infos,
    name: &str,
    mode: Mode,
    client: u64,
) -> Result<(), Memory> {
    match Name::of(alloc, name) {
        Ok(name) => Ok(infos.push(LockInfo { name, mode, client })?),
        Err(_) => Err(Memory),
    }
}

/// The first agent holds a lock of this name, and agents up to the last wait for one of the name `db`.
fn see(alloc: Global, seen: &mut Snapshot, name: &str, last: u64) -> Result<(), Memory> {
    add_info(alloc, &mut seen.held, name, Mode::Exclusive, 1)?;
    for client in 2..=last {
        add_info(alloc, &mut seen.pending, "db", Mode::Shared, client)?;
    }
    Ok(())
}

/// The text of a reply that shows them.
fn add_held(alloc: Global, came: &mut String, name: &str, last: u64) -> Result<(), Memory> {
    let mut seen = no_locks(alloc);
    see(alloc, &mut seen, name, last)?;
    add_plain(alloc, came, Some(1), Outcome::Seen(seen))
}
