//! A server's parts, and what it is made of.

use crate::counts::Refused;
use crate::fencing::Fencing;
use crate::hall::Hall;
use crate::log_queue::{LogQueue, LogWriter, log_queue};
use crate::loop_state::LoopState;
use crate::overview::ServerOverview;
use crate::threads::{Run, run_threads};
use crate::watching::WatchedTokens;
use log::Log;
use std::alloc::Global;
use std::fs::Files;
use std::io;
use std::net::Net;
use std::random::RandomSource;
use std::sync::Wait;
use std::thread::Threads;
use std::time::{Clock, Instant, SystemTime, UNIX_EPOCH};
use thiserror::Error;
use wl_admission::{PlaceLimits, Rules};
use wl_liveness::Limits;
use wl_loops::{LoopSetup, TransportListener, setup};
use wl_manager::{Alarm, CoarseClock};
use wl_service::{Keeping, Service};
use wl_status::StatusServer;
use wl_types::Memory;

/// What a server is to be.
#[derive(Drop)]
pub struct Setup<'a> {
    pub loops: usize,
    pub places: PlaceLimits,
    pub managers: usize,
    pub limits: Limits,
    pub rules: Rules,
    /// Where the rules' tokens are from a file.
    pub tokens: Option<WatchedTokens<'a>>,
    /// The epoch of its fencing tokens, greater than at each start before; without one it has none to give.
    pub epoch: Option<u64>,
    /// Whether it is to end when standard input does.
    pub while_input: bool,
    /// What shows its status.
    pub status: Option<StatusServer>,
}

/// Why a server doesn't run, or doesn't go on.
#[derive(Clone, Copy, Debug, PartialEq, Eq, Drop, Error)]
pub enum ServeFault {
    /// The system gave no means to wait for streams, no thread or no clock.
    #[error("cannot start the event loops")]
    Start,
    /// The system failed while a loop waited for streams.
    #[error("an event loop failed")]
    Loop,
    #[error("out of memory")]
    Memory,
}

impl From<Memory> for ServeFault {
    fn from(_refused: Memory) -> ServeFault {
        ServeFault::Memory
    }
}

impl From<io::Error> for ServeFault {
    fn from(error: io::Error) -> ServeFault {
        match error.kind() {
            io::ErrorKind::OutOfMemory => ServeFault::Memory,
            _ => ServeFault::Start,
        }
    }
}

fn states_for(alloc: Global, loops: usize, alarm: &Alarm) -> Result<Vec<LoopState>, Memory> {
    let mut states = Vec::new(alloc);
    for _ in 0..loops {
        states.push(LoopState::new(alloc, alarm)?)?;
    }
    Ok(states)
}

/// The time by the system's calendar; 0 where it has none.
fn seconds_since_1970<R: Clock>(rt: &R) -> u64 {
    match SystemTime::now(rt) {
        Ok(now) => match now.duration_since(UNIX_EPOCH) {
            Ok(time) => time.as_secs(),
            Err(_) => 0,
        },
        Err(_) => 0,
    }
}

/// Serves what comes to the listeners, until it is to end, which it may never be, or a loop fails. A thread of its own
/// tells the log what happens, so that nobody else waits for whoever reads that; at the end it has told all.
pub fn serve<R, L>(
    rt: &R,
    log: &L,
    listeners: Vec<TransportListener>,
    asked: Setup<'_>,
) -> Result<(), ServeFault>
where
    R: Net + Threads + Wait + Clock + Files<File: Send, Dir: Send> + Sync,
    R: io::Input + RandomSource + AllocGlobal,
    L: Log + Sync,
{
    let alloc = rt.alloc();
    let clock = CoarseClock::new(alloc)?;
    let most = asked.managers;
    let service = Service::with_clock(rt, alloc, Keeping::Used { most }, Some(clock.share()?))?;
    let refused = Refused::new(alloc)?;
    let alarm = Alarm::new(alloc)?;
    let states = states_for(alloc, asked.loops, &alarm)?;
    let (queue, writer) = log_queue(rt, alloc, log)?;
    let hall = Hall {
        alloc,
        service: &service,
        loops: &states,
        alarm,
        clock,
        refused: &refused,
        fencing: Fencing::of(alloc, asked.epoch)?,
        limits: asked.limits,
        log: &queue,
    };
    serve_hall(rt, hall, listeners, asked, writer)
}

/// Serves by this hall what comes to the listeners.
fn serve_hall<'a, R, L>(
    rt: &'a R,
    hall: Hall<'a, LogQueue<'a, R, L>>,
    listeners: Vec<TransportListener>,
    asked: Setup<'_>,
    writer: LogWriter<'a, L>,
) -> Result<(), ServeFault>
where
    R: Net + Threads + Wait + Clock + Files<File: Send, Dir: Send> + Sync,
    R: io::Input + RandomSource + AllocGlobal,
    L: Log + Sync,
{
    let Setup {
        loops,
        places,
        rules,
        tokens,
        while_input,
        status,
        ..
    } = asked;
    let (alloc, log) = (hall.alloc, hall.log);
    let (service, states, refused) = (hall.service, hall.loops, hall.refused);
    let LoopSetup { shared, polls } = setup(rt, alloc, hall, loops, places, rules)?;
    let overview = ServerOverview {
        alloc,
        shared: &shared,
        service,
        loops: states,
        refused,
        start: Instant::now(rt)?,
        started: seconds_since_1970(rt),
    };
    let run = Run {
        listeners,
        polls,
        tokens,
        while_input,
        status,
        writer,
    };
    run_threads(rt, log, &overview, run)
}
