//! The threads of a server.

use crate::hall::Hall;
use crate::input::wait_for_input;
use crate::log_queue::{LogQueue, LogWriter};
use crate::overview::ServerOverview;
use crate::serving::ServeFault;
use crate::watching::{Over, WatchedTokens, watch};
use log::Log;
use mio::Poll;
use std::fs::Files;
use std::net::Net;
use std::random::RandomSource;
use std::sync::Wait;
use std::sync::atomic::{AtomicBool, Ordering};
use std::thread::{JoinHandle, Scope, Threads};
use std::time::{Clock, Instant};
use std::{io, mem, thread};
use wl_loops::{EventLoop, Lobby, Shared, TransportListener};
use wl_status::{StatusEnd, StatusServer};

/// What the threads of a server are given.
#[derive(Drop)]
pub struct Run<'a, L> {
    pub listeners: Vec<TransportListener>,
    /// One for each loop.
    pub polls: Vec<Poll>,
    pub tokens: Option<WatchedTokens<'a>>,
    pub while_input: bool,
    pub status: Option<StatusServer>,
    /// What tells the log the lines of the loops' queue.
    pub writer: LogWriter<'a, L>,
}

/// Runs the threads of a server until it ends, and all lines of the queue are told.
pub fn run_threads<'a, R, L>(
    rt: &'a R,
    log: &'a LogQueue<'a, R, L>,
    overview: &'a ServerOverview<'a, LogQueue<'a, R, L>>,
    asked: Run<'a, L>,
) -> Result<(), ServeFault>
where
    R: Net + Threads + Wait + Clock + Files<File: Send, Dir: Send> + Sync,
    R: io::Input + RandomSource + AllocGlobal,
    L: Log + Sync,
{
    let Run {
        listeners,
        polls,
        tokens,
        while_input,
        status,
        writer,
    } = asked;
    let end = End::new(overview.shared, status.as_ref())?;
    let Ok(lobby) = Lobby::new(rt, overview.shared) else {
        return Err(ServeFault::Memory);
    };
    let (end, lobby) = (&end, &lobby);
    thread::scope(thread::scope_env(), rt, |scope| -> Result<(), ServeFault> {
        let loops = start_loops(scope, rt, end, lobby, listeners, polls, overview.start)?;
        if let Some(tokens) = tokens {
            let spawned = scope.spawn(move || {
                let mut tokens = tokens;
                watch(rt, log, &mut tokens, end.shared, &end.over)
            });
            if spawned.is_err() {
                return Err(end.give_up(rt));
            }
        }
        start_status(scope, rt, overview, end, status)?;
        if scope.spawn(move || writer.write(rt)).is_err() {
            return Err(end.give_up(rt));
        }
        if while_input {
            wait_for_input(rt, &end.over);
            end.tell(rt);
        }
        join_all(rt, loops);
        log.end();
        Ok(())
    })?;
    if end.has_failed.load(Ordering::SeqCst) {
        return Err(ServeFault::Loop);
    }
    Ok(())
}

/// Starts the loops, and answers their threads. The first that is started has all listeners.
fn start_loops<'s, 'a: 's, 'b: 's, E, R, L>(
    scope: &Scope<'s, E>,
    rt: &'a R,
    end: &'b End<'a, Hall<'a, L>>,
    lobby: &'b Lobby<'a, R, Hall<'a, L>>,
    listeners: Vec<TransportListener>,
    polls: Vec<Poll>,
    start: Instant,
) -> Result<Vec<JoinHandle<()>>, ServeFault>
where
    R: Wait + Clock + AllocGlobal + Sync,
    L: Log + Sync,
{
    let mut listeners = listeners;
    let mut polls = polls;
    let mut threads = Vec::new(rt.alloc());
    for place in (0..polls.len()).rev() {
        let Some(poll) = polls.pop() else {
            break;
        };
        let mine = mem::replace(&mut listeners, Vec::new(rt.alloc()));
        let spawned = scope.spawn(move || {
            let shared = end.shared;
            let mut event_loop = EventLoop::new(rt, shared, Some(lobby), place, poll, mine, start);
            if event_loop.serve().is_err() {
                end.fail();
            }
            end.tell(rt);
        });
        let Ok(thread) = spawned else {
            return Err(end.give_up(rt));
        };
        if threads.push(thread).is_err() {
            end.tell(rt);
            return Err(ServeFault::Memory);
        }
    }
    Ok(threads)
}

/// Waits until these threads have ended.
fn join_all<R: Threads>(rt: &R, threads: Vec<JoinHandle<()>>) {
    for thread in threads {
        thread.join(rt);
    }
}

/// Starts what shows the status, if it is asked for.
fn start_status<'s, 'a: 's, 'b: 's, 'c: 's, 'd: 's, E, R, L>(
    scope: &Scope<'s, E>,
    rt: &'a R,
    overview: &'c ServerOverview<'d, L>,
    end: &'b End<'a, Hall<'a, L>>,
    status: Option<StatusServer>,
) -> Result<(), ServeFault>
where
    R: Net + Wait + Clock + RandomSource + AllocGlobal + Sync,
    L: Log + Sync,
{
    let (Some(status), Some(told)) = (status, &end.status) else {
        return Ok(());
    };
    let spawned = scope.spawn(move || {
        let mut status = status;
        if status.serve(rt, overview, told).is_err() {
            end.fail();
            end.tell(rt);
        }
    });
    if spawned.is_err() {
        return Err(end.give_up(rt));
    }
    Ok(())
}

/// What ends the threads of a server.
#[derive(Drop)]
struct End<'a, H> {
    shared: &'a Shared<H>,
    over: Over,
    status: Option<StatusEnd>,
    has_failed: AtomicBool,
}

impl<'a, H> End<'a, H> {
    fn new(shared: &'a Shared<H>, status: Option<&StatusServer>) -> io::Result<End<'a, H>> {
        let status = match status {
            Some(status) => Some(status.end()?),
            None => None,
        };
        Ok(End {
            shared,
            over: Over::new(),
            status,
            has_failed: AtomicBool::new(false),
        })
    }

    /// A loop failed, or what shows the status.
    fn fail(&self) {
        self.has_failed.store(true, Ordering::SeqCst);
    }

    /// A thread can't be started, so all that were are to end.
    fn give_up<R: Wait>(&self, rt: &R) -> ServeFault {
        self.tell(rt);
        ServeFault::Start
    }

    fn tell<R: Wait>(&self, rt: &R) {
        self.shared.end();
        self.over.tell(rt);
        if let Some(status) = &self.status {
            status.tell();
        }
    }
}
