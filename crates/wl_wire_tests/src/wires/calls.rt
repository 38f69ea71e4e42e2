//! Calls of an open connection, by lists: `READ ..; WRITE ..; CALL ..` answers each call, and then the frames that
//! left.
//!
//! The calls are `came`, `blocked`, `flush`, `ping`, `close` as a server does that ends, and `turn`.

use super::echo::Echo;
use super::greet;
use super::script::{Script, script_of, show_frames};
use crate::lists::{Scene, assert_lists};
use std::alloc::Global;
use std::sync::atomic::AtomicU64;
use std::sync::{Arc, Wait};
use std::test::Fail;
use wl_wire::{Ending, Greeted, Speaker, Turn, Wire, take_turn};

const LISTS: &[&str] = &[
    "hello; ; blocked flush blocked ping close -> true Left false Left Left: ping closed 1001
hello; ; ping close -> Waits Left: closed 1001
hello; 0; flush ping blocked ping flush blocked -> Left Waits true Waits Left false: ping
hello a; ; came turn came -> 0 went 7: a
",
];

/// What makes calls.
#[derive(Drop)]
struct Calls {
    alloc: Global,
}

impl Scene for Calls {
    fn new(alloc: Global) -> Calls {
        Calls { alloc }
    }

    fn call<R: Wait>(&mut self, rt: &R, call: &str, came: &mut String) -> Result<(), Fail> {
        let (reads, rest) = call.split_once("; ").unwrap_or((call, ""));
        let (writes, calls) = rest.split_once("; ").unwrap_or((rest, ""));
        let script = script_of(self.alloc, reads, writes)?;
        match greet(self.alloc, script) {
            Ok(Greeted::Open(wire, _)) => make_calls(rt, self.alloc, wire, calls, came),
            Ok(_) => Ok(came.push_str("not open")?),
            Err(error) => Err(Fail::from(error)),
        }
    }
}

fn make_calls<R: Wait>(
    rt: &R,
    alloc: Global,
    wire: Wire<Script>,
    calls: &str,
    came: &mut String,
) -> Result<(), Fail> {
    let mut wire = wire;
    let mut is_first = true;
    for call in calls.split(' ') {
        if !is_first {
            came.push(' ')?;
        }
        is_first = false;
        match call {
            "came" => write!(came, "{}", wire.byte_count())?,
            "blocked" => write!(came, "{}", wire.is_blocked())?,
            "flush" => write!(came, "{:?}", wire.flush())?,
            "ping" => write!(came, "{:?}", wire.ping())?,
            "close" => write!(came, "{:?}", wire.close(Ending::Away))?,
            _ => came.push_str(take_one_turn(rt, alloc, &mut wire)?)?,
        }
    }
    came.push(':')?;
    show_frames(wire.into_stream().written.as_slice(), came)?;
    Ok(())
}

/// Takes a turn, with a speaker of its own.
fn take_one_turn<R: Wait>(
    rt: &R,
    alloc: Global,
    wire: &mut Wire<Script>,
) -> Result<&'static str, Fail> {
    let ended = Arc::new(alloc, AtomicU64::new(0))?;
    match take_turn(rt, wire, Echo::new(alloc, &ended)?, &mut false) {
        Turn::Went(echo, _) => {
            echo.end(rt);
            Ok("went")
        }
        Turn::Ended(_) => Ok("ended"),
    }
}

#[test]
fn wires_do_the_lists(rt: HostRuntime) -> Result<(), Fail> {
    assert_lists::<Calls, _>(&rt, rt.alloc(), LISTS)
}
