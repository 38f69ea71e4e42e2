//! Turns of a connection over a stream in memory, by lists of calls: `READ ..; WRITE ..` answers what came of each
//! turn, how often the speaker ended, and the frames that left whole, by their kinds and texts.
//!
//! - What is read, one read each: `hello` and `pushed`, a handshake without and with pushes; `origins` and `latin`, one
//!   with two origins and one whose origin is no ASCII; `head=COUNT`, one of so many bytes; `target=TARGET`, one with
//!   this target; `get=PART` and `tail=PART`, that in two reads; `empty`, an empty line; `ping`, `close`, `long`,
//!   `bytes`, `unmasked`, frames that are so; `half` and `rest`, a text in two reads; `20`, so many texts;
//!   `fragments`, very many of a text that have no byte; `wait`, nothing yet; any other word, as a text. Behind them
//!   nothing comes.
//! - What a write takes: a number of bytes, 0 where it would wait. Behind them all is taken.
//!
//! The speaker answers a text by itself, has `news` to push after `mark`, and ends the connection at `leave`.

mod calls;
mod echo;
mod script;

use crate::lists::{Scene, assert_lists};
use echo::Echo;
use script::{Script, script_of, show_frames};
use std::alloc::{AllocError, Global};
use std::sync::atomic::{AtomicU64, Ordering};
use std::sync::{Arc, Wait};
use std::test::Fail;
use wl_admission::{Rules, Scope};
use wl_wire::{Greeted, Greeting, Pace, Speaker, Turn, Wire, take_turn};

/// The turns that are taken.
const TURNS: u32 = 4;

/// How far a handshake is, at a server that is sharded and trusts each page, once it went on so often.
fn greet(alloc: Global, script: Script) -> Result<Greeted<Script>, AllocError> {
    let rules = Rules {
        trusted: Scope::All,
        tokens: None,
        has_fences: true,
        is_sharded: true,
    };
    let rules = Arc::new(alloc, rules)?;
    let mut greeting = Greeting::new(alloc, script, Some(rules))?;
    for _ in 0..TURNS {
        match greeting.go_on() {
            Greeted::Waits(next) => greeting = next,
            greeted => return Ok(greeted),
        }
    }
    Ok(Greeted::Waits(greeting))
}

/// What takes turns.
#[derive(Drop)]
struct Turns {
    alloc: Global,
}

impl Scene for Turns {
    fn new(alloc: Global) -> Turns {
        Turns { alloc }
    }

    fn call<R: Wait>(&mut self, rt: &R, call: &str, came: &mut String) -> Result<(), Fail> {
        let (reads, writes) = call.split_once("; ").unwrap_or((call, ""));
        let told = greeted_text(self.alloc, script_of(self.alloc, reads, writes)?)?;
        if told != OPEN && told != PUSHED {
            return Ok(came.push_str(told)?);
        }
        // The same handshake once more, whose wire takes turns.
        let script = script_of(self.alloc, reads, writes)?;
        match greet(self.alloc, script) {
            Ok(Greeted::Open(wire, _)) => take_turns(rt, self.alloc, wire, told == PUSHED, came),
            Ok(_) => Ok(came.push_str("not open")?),
            Err(error) => Err(Fail::from(error)),
        }
    }
}

const OPEN: &str = "open";

const PUSHED: &str = "pushed";

/// How far a handshake is, as text.
fn greeted_text(alloc: Global, script: Script) -> Result<&'static str, AllocError> {
    let greeted = greet(alloc, script)?;
    Ok(show_greeted(&greeted))
}

fn show_greeted(greeted: &Greeted<Script>) -> &'static str {
    match greeted {
        Greeted::Waits(_) => "waits",
        Greeted::Open(_, admitted) if admitted.is_pushed() => PUSHED,
        Greeted::Open(_, _) => OPEN,
        Greeted::Refused(rejection) => rejection.text(),
        Greeted::NoHandshake => "no handshake",
        Greeted::Failed => "failed",
    }
}

fn take_turns<R: Wait>(
    rt: &R,
    alloc: Global,
    wire: Wire<Script>,
    is_pushed: bool,
    came: &mut String,
) -> Result<(), Fail> {
    let ended = Arc::new(alloc, AtomicU64::new(0))?;
    let mut wire = wire;
    let mut speaker = Some(Echo::new(alloc, &ended)?);
    for _ in 0..TURNS {
        let Some(echo) = speaker.take() else {
            break;
        };
        // Each turn looks for changes once.
        let mut may_push = is_pushed;
        wire.wake();
        match take_turn(rt, &mut wire, echo, &mut may_push) {
            Turn::Went(next, pace) => {
                came.push_str(if pace == Pace::Again {
                    "again "
                } else {
                    "waits "
                })?;
                speaker = Some(next);
            }
            Turn::Ended(ending) => {
                write!(came, "{ending:?} ")?;
                let _ = wire.close(ending);
            }
        }
    }
    if let Some(echo) = speaker {
        echo.end(rt);
    }
    write!(came, "{}:", ended.load(Ordering::SeqCst))?;
    let script = wire.into_stream();
    show_frames(script.written.as_slice(), came)?;
    Ok(())
}

const LISTS: &[&str] = &[
    // Handshakes.
    "wait -> waits
hello wait -> waits waits waits waits 1:
x -> no handshake
head=16384 a -> waits waits waits waits 1: a
head=16385 a -> no handshake
origins -> more than one Origin header
latin -> a header that is no text
target=/?origin=http%3A%2F%2Fb.test a -> waits waits waits waits 1: a
get=/?origin=http%3A%2F tail=%2Fb.test a -> waits waits waits waits 1: a
get=/?origin=http%3A%2F%2Fb wait tail=.test%2Fx -> a target that is not /?origin= and an origin's canonical text
empty empty target=/?origin=http%3A%2F%2Fb.test a -> waits waits waits waits 1: a
target=/ -> a target that is not /?origin= and an origin's canonical text
target=/?origin=http%3A%2F%2Fb.test#x -> a target that is not /?origin= and an origin's canonical text
target=http://b/?origin=http%3A%2F%2Fb.test -> a target that is not /?origin= and an origin's canonical text
target=HTTP://b/?origin=http%3A%2F%2Fb.test -> a target that is not /?origin= and an origin's canonical text
",
    // What comes and goes.
    "hello -> waits waits waits waits 1:
hello a b -> waits waits waits waits 1: a b
hello a wait b -> waits waits waits waits 1: a b
hello half wait rest -> waits waits waits waits 1: half
hello ping a -> waits waits waits waits 1: pong a
hello 20 -> again waits waits waits 1: x x x x x x x x x x x x x x x x x x x x
",
    // What makes no message leaves others their turns too.
    "hello fragments -> again again again again 1:
",
    // A stream that blocks: what waits leaves before the next message is read.
    "hello a b; 1 0 -> waits waits waits waits 1: a b
hello a b c; 2 0 0 0 0 0 -> waits waits waits waits 1: half
hello ping a; 0 0 -> waits waits waits waits 1: pong a
pushed mark a -> waits waits waits waits 1: mark a push
pushed mark wait a -> waits waits waits waits 1: mark push a
pushed mark wait a; 4 0 0 -> waits waits waits waits 1: mark push a
hello mark wait a -> waits waits waits waits 1: mark a
",
    // Ends.
    "hello a leave b -> Forbidden(\"left\") 1: a closed 1008
hello a close b -> Closed 1: a closed
hello long -> TooLong 1: closed 1009
hello bytes -> NotText 1: closed 1007
hello unmasked -> Protocol 1: closed 1002
",
];

#[test]
fn turns_do_the_lists(rt: HostRuntime) -> Result<(), Fail> {
    assert_lists::<Turns, _>(&rt, rt.alloc(), LISTS)
}
