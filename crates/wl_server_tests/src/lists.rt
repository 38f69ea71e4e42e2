//! Lists of calls, each with what it is to answer.
//!
//! A line is a call, an arrow and its answer: `release 1 2 -> Released`. A line without an arrow goes on with the
//! answer above it. The calls of a service and its clients are told in `scene`. The others are:
//!
//! - `visit_and_ask` and `open_pairs`: what threads do to a service at once (`service::threads`);
//! - `serve STREAM FRAME ..`: a connection over a stream in memory (`server::streams`);
//! - `relay MANNER PIECE ..`: relaying to a server over loopback, with the replies (`server::loopback`);
//! - `relay_to HOST` and `relay_to_nobody`: relaying to what is no such server (`server::hosts`);
//! - `serve_gated` and `serve_waiting`: what a gate is told of two connections, and whether the one goes on while the
//!   other waits (`server::hooks`);
//! - `serve_dropped`: a connection whose stream ends while somebody waits for its lock (`server::dropped`);
//! - `peer CALL ..`: a peer of the service (`server::peers`);
//! - `steal_at_once`: peers that steal a lock from one another (`server::fences`);
//! - `without_random_words`: whether there is no service then (`service::keeping`);
//! - `faults`: the texts of why no client is opened (`service::opening`);
//! - `serve_crowd COUNT` and `serve_nobody COUNT`: that many connections, or none of them (`server::crowds`).

use crate::scene::Scene;
use crate::server::{crowds, dropped, fences, hooks, hosts, loopback, peers, streams};
use crate::service::{keeping, opening, threads};
use std::alloc::{AllocError, Global};
use std::fmt::Debug;
use std::net::{Net, TcpListener, TcpStream};
use std::process::Abort;
use std::random::RandomSource;
use std::sync::Wait;
use std::test::Fail;
use std::thread::Threads;

/// Wants each list to come out as it is written, each on a new service.
pub fn assert_lists<R>(rt: &R, alloc: Global, lists: &[&str]) -> Result<(), Fail>
where
    R: Net<Listener = TcpListener, Stream = TcpStream>
        + Threads
        + Wait
        + RandomSource
        + Sync
        + Abort,
{
    let mut came = String::new(alloc);
    for list in lists {
        came.clear();
        do_list(rt, alloc, list, &mut came)?;
        assert_eq!(rt; came.as_str(), *list);
    }
    Ok(())
}

/// Adds a list as it comes out.
fn do_list<R>(rt: &R, alloc: Global, list: &str, came: &mut String) -> Result<(), Fail>
where
    R: Net<Listener = TcpListener, Stream = TcpStream> + Threads + Wait + RandomSource + Sync,
{
    let mut scene = Scene::new(rt, alloc)?;
    let done = do_calls(rt, &mut scene, list, came);
    scene.leave(rt);
    done
}

pub fn do_calls<R>(rt: &R, scene: &mut Scene, list: &str, came: &mut String) -> Result<(), Fail>
where
    R: Net<Listener = TcpListener, Stream = TcpStream> + Threads + Wait + RandomSource + Sync,
{
    for line in list.lines() {
        if let Some((call, _)) = line.split_once(" -> ") {
            write!(came, "{call} -> ")?;
            do_call(rt, scene, call, came)?;
        }
    }
    Ok(())
}

/// Does the calls of a list, as `do_calls` does, but each that is refused memory once more. Whether one was.
pub fn do_again<R: Wait>(
    rt: &R,
    scene: &mut Scene,
    list: &str,
    came: &mut String,
) -> Result<bool, Fail> {
    let mut was_refused = false;
    for line in list.lines() {
        if let Some((call, _)) = line.split_once(" -> ") {
            write!(came, "{call} -> ")?;
            was_refused |= try_call(rt, scene, call, came)?;
        }
    }
    Ok(was_refused)
}

fn try_call<R: Wait>(
    rt: &R,
    scene: &mut Scene,
    call: &str,
    came: &mut String,
) -> Result<bool, Fail> {
    let mut first = String::new(scene.alloc);
    scene.do_call(rt, call, &mut first)?;
    if first.as_str() == "Err(Memory)\n" {
        scene.do_call(rt, call, came)?;
        return Ok(true);
    }
    came.push_str(first.as_str())?;
    Ok(false)
}

fn do_call<R>(rt: &R, scene: &mut Scene, call: &str, came: &mut String) -> Result<(), Fail>
where
    R: Net<Listener = TcpListener, Stream = TcpStream> + Threads + Wait + RandomSource + Sync,
{
    let alloc = scene.alloc;
    let service = &scene.service;
    match word(call, 0) {
        "keep" => show(came, Some(scene.keep_used(rt, number(call, 1)))),
        "serve" => streams::serve(rt, alloc, service, call, came),
        "relay" => loopback::relay_pieces(rt, alloc, service, call, came),
        "relay_to" => hosts::relay_to(rt, alloc, call, came),
        "relay_to_nobody" => hosts::relay_to_nobody(rt, alloc, came),
        "serve_gated" => hooks::serve_gated(rt, alloc, service, came),
        "serve_waiting" => hooks::serve_waiting(rt, alloc, service, came),
        "serve_dropped" => dropped::serve_dropped(rt, alloc, service, came),
        "serve_crowd" => crowds::serve_crowd(rt, alloc, service, call, came),
        "serve_nobody" => crowds::serve_nobody(rt, alloc, service, call, came),
        "visit_and_ask" => threads::visit_and_ask(rt, alloc, service, came),
        "open_pairs" => threads::open_pairs(rt, alloc, service, came),
        "steal_at_once" => fences::steal_at_once(rt, alloc, service, came),
        "peer" => peers::do_call(rt, scene, call, came),
        "without_random_words" => show(came, Some(keeping::lack_random_words(alloc))),
        "faults" => opening::put_faults(came),
        _ => scene.do_call(rt, call, came),
    }
}

/// A word of a call, from 0; empty where it has fewer.
pub fn word(call: &str, place: usize) -> &str {
    call.split(' ').nth(place).unwrap_or("")
}

/// What a call has behind its first two words.
pub fn rest(call: &str) -> &str {
    call.splitn(3, ' ').nth(2).unwrap_or("")
}

/// A word's number; 0 where it is none.
pub fn number(call: &str, place: usize) -> usize {
    word(call, place).parse::<usize>().unwrap_or(0)
}

/// Adds an answer as Rust shows it. There is none where a client or ticket isn't there.
pub fn show<T: Debug + Copy>(came: &mut String, answer: Option<T>) -> Result<(), Fail> {
    match answer {
        Some(answer) => add(came, answer)?,
        None => came.push_str("nobody\n")?,
    }
    Ok(())
}

fn add<T: Debug + Copy>(came: &mut String, answer: T) -> Result<(), AllocError> {
    write!(came, "{answer:?}\n")
}
