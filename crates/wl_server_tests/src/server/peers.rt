//! Calls of a peer, which come to the service of the list: `peer CALL ..` of lists.
//!
//! There is one peer at a time. `new` and `fenced` put one there, the latter with fences of the list's counter. `hear
//! MESSAGE` answers the message, `push` and `push_text` tell what changed without being asked, and `is_rung` tells
//! whether something may have. `answer_by OPENER` puts a new peer there that answers to an open, and `reply OPENER` is
//! the answer to it of the peer that is there. `end` ends it, or `end OPENER` by the opener: the `service`, or one that
//! is `forbidding`. A peer that can't answer is gone, but for `reply`.

use super::OPEN;
use crate::lists::{show, word};
use crate::scene::Scene;
use std::alloc::Global;
use std::sync::Wait;
use std::test::Fail;
use wl_server::{Fence, FenceCounter, NoAnswer, NotOpened, Opener, Peer, Scratch, fenced_text};
use wl_service::{Client, Leaving, Service};
use wl_types::{Kind, Memory, Text};

const EPOCH: u64 = 31;

/// The peer, and the counter of those that have fences.
pub struct Seat {
    peer: Option<Peer>,
    counter: Option<FenceCounter>,
}

impl Seat {
    pub fn new() -> Seat {
        Seat {
            peer: None,
            counter: None,
        }
    }

    /// The peer that is there ends.
    pub fn end<R: Wait>(self, rt: &R) {
        let Seat {
            peer,
            counter: _counter,
        } = self;
        if let Some(peer) = peer {
            peer.end(rt);
        }
    }

    /// A peer with fences of the counter.
    fn fenced(&mut self, alloc: Global) -> Result<Peer, Memory> {
        let counter = match &self.counter {
            Some(counter) => counter.share()?,
            None => FenceCounter::new(alloc)?,
        };
        self.counter = Some(counter.share()?);
        Ok(Peer::with_fences(alloc, counter))
    }

    fn is_rung(&self) -> Option<bool> {
        match &self.peer {
            Some(peer) => Some(peer.is_rung()),
            None => None,
        }
    }

    fn push_text(&mut self) -> Result<Option<String>, Memory> {
        match &mut self.peer {
            Some(peer) => peer.push_text(),
            None => Ok(None),
        }
    }
}

/// An opener for whom each URL is another's.
struct Forbidding;

impl Opener for Forbidding {
    fn open<R: Wait>(
        &self,
        _rt: &R,
        _url: &str,
        _bucket: Text,
        _kind: Kind,
    ) -> Result<Client, NotOpened> {
        Err(NotOpened::Forbidden)
    }

    fn close<R: Wait>(&self, rt: &R, client: Client) -> Option<Leaving> {
        client.terminate(rt)
    }
}

fn message(word: &str) -> &'static [u8] {
    match word {
        "open" => OPEN,
        "request" => b"{\"id\":2,\"name\":\"db\",\"op\":\"request\"}",
        "close" => b"{\"id\":3,\"op\":\"close\"}",
        "query" => b"{\"id\":3,\"op\":\"query\"}",
        _ => b"{\"id\":4,\"op\":\"poll\"}",
    }
}

pub fn do_call<R: Wait>(
    rt: &R,
    scene: &mut Scene,
    call: &str,
    came: &mut String,
) -> Result<(), Fail> {
    let seat = &mut scene.seat;
    match word(call, 1) {
        "new" => show(came, sit(rt, &mut seat.peer, Peer::new(scene.alloc))),
        "fenced" => show(came, Some(come_fenced(rt, scene.alloc, seat))),
        "is_rung" => show(came, seat.is_rung()),
        "end" => show(came, end(rt, &scene.service, &mut seat.peer, word(call, 2))),
        _ => put(came, tell(rt, scene.alloc, &scene.service, seat, call)),
    }
}

/// A peer that was there ends.
fn sit<R: Wait>(rt: &R, seat: &mut Option<Peer>, peer: Peer) -> Option<()> {
    if let Some(before) = seat.replace(peer) {
        before.end(rt);
    }
    Some(())
}

fn come_fenced<R: Wait>(rt: &R, alloc: Global, seat: &mut Seat) -> Result<(), Memory> {
    let peer = seat.fenced(alloc)?;
    sit(rt, &mut seat.peer, peer);
    Ok(())
}

/// Adds what was told, or why it wasn't.
fn put(came: &mut String, told: Result<Option<String>, NoAnswer>) -> Result<(), Fail> {
    match told {
        Ok(Some(text)) => write!(came, "{}\n", text.as_str())?,
        Ok(None) => came.push_str("nothing\n")?,
        Err(fault) => write!(came, "Err({fault:?})\n")?,
    }
    Ok(())
}

fn tell<R: Wait>(
    rt: &R,
    alloc: Global,
    service: &Service,
    seat: &mut Seat,
    call: &str,
) -> Result<Option<String>, NoAnswer> {
    match (word(call, 1), word(call, 2)) {
        ("hear", word) => hear(rt, alloc, service, &mut seat.peer, message(word)),
        ("push", _) => push(rt, alloc, service, &mut seat.peer),
        ("push_text", _) => Ok(seat.push_text()?),
        ("answer_by", "forbidding") => answer_by(rt, alloc, &Forbidding, &mut seat.peer),
        ("answer_by", _) => answer_by(rt, alloc, service, &mut seat.peer),
        (_, "forbidding") => reply(rt, alloc, &Forbidding, &mut seat.peer),
        _ => reply(rt, alloc, service, &mut seat.peer),
    }
}

fn hear<R: Wait>(
    rt: &R,
    alloc: Global,
    service: &Service,
    seat: &mut Option<Peer>,
    message: &[u8],
) -> Result<Option<String>, NoAnswer> {
    let Some(peer) = seat.take() else {
        return Ok(None);
    };
    let (peer, text) = peer.answer(rt, service, message)?;
    let told = fence(alloc, peer.fences(), Some(text));
    sit(rt, seat, peer);
    told
}

fn push<R: Wait>(
    rt: &R,
    alloc: Global,
    service: &Service,
    seat: &mut Option<Peer>,
) -> Result<Option<String>, NoAnswer> {
    let Some(peer) = seat.take() else {
        return Ok(None);
    };
    let (peer, text) = peer.push(rt, service)?;
    let told = fence(alloc, peer.fences(), text);
    sit(rt, seat, peer);
    told
}

/// The text with the fences. It needs no memory where there are none.
fn fence(
    alloc: Global,
    fences: &[Fence],
    text: Option<String>,
) -> Result<Option<String>, NoAnswer> {
    match text {
        Some(text) => Ok(Some(fenced_text(alloc, EPOCH, fences, text)?)),
        None => Ok(None),
    }
}

fn answer_by<R: Wait, O: Opener>(
    rt: &R,
    alloc: Global,
    opener: &O,
    seat: &mut Option<Peer>,
) -> Result<Option<String>, NoAnswer> {
    let mut scratch = Scratch::new(alloc);
    let (peer, text) = Peer::new(alloc).answer_by(rt, opener, OPEN, &mut scratch)?;
    sit(rt, seat, peer);
    Ok(Some(text))
}

fn reply<R: Wait, O: Opener>(
    rt: &R,
    alloc: Global,
    opener: &O,
    seat: &mut Option<Peer>,
) -> Result<Option<String>, NoAnswer> {
    let Some(peer) = seat else {
        return Ok(None);
    };
    let mut scratch = Scratch::new(alloc);
    Ok(Some(peer.reply(rt, opener, OPEN, &mut scratch)?))
}

fn end<R: Wait>(rt: &R, service: &Service, seat: &mut Option<Peer>, opener: &str) -> Option<()> {
    let peer = seat.take()?;
    match opener {
        "forbidding" => peer.end_by(rt, &Forbidding),
        "service" => peer.end_by(rt, service),
        _ => peer.end(rt),
    }
    Some(())
}

/// Its request waits until the lock of another client is given up.
const A_PEER_TELLS_ONCE_WHAT_CHANGED: &str = "\
open window https://a.test/ -> Ok(Some(1))
request 1 db -> Ok(1)
peer new -> ()
peer hear open -> {\"id\":1,\"notices\":[],\"ok\":{\"client\":\"client-2\"}}
peer hear request -> {\"id\":2,\"notices\":[],\"ok\":{\"request\":2}}
peer push -> nothing
release 1 1 -> Released
peer is_rung -> true
peer push_text -> {\"id\":null,\"notices\":[{\"phase\":\"granted\",\"request\":2}],\"ok\":{}}
peer push_text -> nothing
peer end service -> ()
";

/// The manager goes with the first peer, so that the second is a first client too.
const AN_OPENER_MAY_TURN_A_PEER_AWAY: &str = "\
peer answer_by forbidding -> Err(Forbidden)
keep 0 -> Ok(())
peer answer_by service -> Err(TooManyManagers)
keep 1 -> Ok(())
peer answer_by service -> {\"id\":1,\"notices\":[],\"ok\":{\"client\":\"client-1\"}}
peer end service -> ()
managers -> 0
peer answer_by service -> {\"id\":1,\"notices\":[],\"ok\":{\"client\":\"client-1\"}}
peer end service -> ()
managers -> 0
";

const A_PEER_ANSWERS_WHERE_IT_STANDS: &str = "\
peer new -> ()
peer reply forbidding -> Err(Forbidden)
peer end forbidding -> ()
peer new -> ()
peer reply service -> {\"id\":1,\"notices\":[],\"ok\":{\"client\":\"client-1\"}}
peer end service -> ()
";

/// A peer has a lock and ends. Another waits for it, closes, opens again, and has it once more.
const GRANTS_ARE_TOLD_WITH_FENCES: &str = "\
peer fenced -> Ok(())
peer hear open -> {\"id\":1,\"notices\":[],\"ok\":{\"client\":\"client-1\"}}
peer hear request -> {\"fences\":[{\"fence\":\"000000000000001f-0000000000000001\",\"request\":1}],\"id\":2,\"notices\":[{\"phase\":\"granted\",\"request\":1}],\"ok\":{\"request\":1}}
peer end -> ()
open window https://a.test/ -> Ok(Some(2))
request 1 db -> Ok(2)
peer fenced -> Ok(())
peer hear open -> {\"id\":1,\"notices\":[],\"ok\":{\"client\":\"client-3\"}}
peer hear request -> {\"id\":2,\"notices\":[],\"ok\":{\"request\":3}}
release 1 1 -> Released
peer push -> {\"fences\":[{\"fence\":\"000000000000001f-0000000000000002\",\"request\":3}],\"id\":null,\"notices\":[{\"phase\":\"granted\",\"request\":3}],\"ok\":{}}
peer hear close -> {\"id\":3,\"notices\":[],\"ok\":{}}
peer hear open -> {\"id\":1,\"notices\":[],\"ok\":{\"client\":\"client-4\"}}
peer hear request -> {\"fences\":[{\"fence\":\"000000000000001f-0000000000000003\",\"request\":4}],\"id\":2,\"notices\":[{\"phase\":\"granted\",\"request\":4}],\"ok\":{\"request\":4}}
peer end -> ()
";

pub const LISTS: &[&str] = &[
    A_PEER_TELLS_ONCE_WHAT_CHANGED,
    AN_OPENER_MAY_TURN_A_PEER_AWAY,
    A_PEER_ANSWERS_WHERE_IT_STANDS,
    GRANTS_ARE_TOLD_WITH_FENCES,
];
