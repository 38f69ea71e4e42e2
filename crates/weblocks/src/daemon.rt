//! The job of the daemon: a server that runs until it is stopped.

use crate::fail;
use crate::listening::{Listening, Place};
use log::sink::Console;
use log::{LevelFilter, Log, Logged, info};
use std::fs::{File, Files};
use std::net::Net;
use std::process::ExitCode;
use std::random::RandomSource;
use std::sync::Wait;
use std::thread::Threads;
use std::time::Clock;
use std::{io, thread};
use wl_admission::Rules;
use wl_cli::{DaemonOptions, EpochSource, MOST_LOOPS, addresses_of};
use wl_daemon::{
    EntryFault, Setup, TokenFile, WatchedTokens, check_address, next_epoch, places_for, read_rules,
    serve,
};
use wl_liveness::Limits;
use wl_status::StatusServer;

/// One loop a core, where nothing else is asked for.
fn loops_of<R: Threads>(rt: &R, options: &DaemonOptions<'_>) -> usize {
    let loops = match options.loops {
        Some(loops) => loops as usize,
        None => match thread::available_parallelism(rt) {
            Ok(cores) => cores.get(),
            Err(_) => 1,
        },
    };
    loops.clamp(1, MOST_LOOPS as usize)
}

/// The rules that are asked for, of the addresses and the token file of the options.
fn rules_of<'a, R>(
    rt: &R,
    options: &DaemonOptions<'a>,
    file: Option<&mut TokenFile<'_>>,
) -> Result<Rules, EntryFault<'a>>
where
    R: Files + AllocGlobal,
{
    let Ok(addresses) = addresses_of(rt.alloc(), options.listen.as_slice()) else {
        return Err(EntryFault::Memory);
    };
    let origins = options.allow_origins.as_slice();
    let has_fences = options.epoch.is_some();
    let addresses = addresses.as_slice();
    let is_sharded = options.is_sharded;
    read_rules(
        rt,
        addresses,
        options.is_open,
        origins,
        file,
        has_fences,
        is_sharded,
    )
}

/// What is read again while the daemon runs, if it has a file of tokens.
fn watched_tokens<'a>(
    options: &'a DaemonOptions<'a>,
    file: Option<TokenFile<'a>>,
) -> Option<WatchedTokens<'a>> {
    Some(WatchedTokens {
        file: file?,
        origins: options.allow_origins.as_slice(),
        has_fences: options.epoch.is_some(),
        is_sharded: options.is_sharded,
    })
}

/// The epoch of this start, if one is asked for: where a file keeps it, it is on the disk from now on. Or why there is
/// none, as a line, and the status.
fn begin_epoch<R>(rt: &R, options: &DaemonOptions<'_>) -> Result<Option<u64>, ExitCode>
where
    R: Files<File = File> + Eprint + AllocGlobal,
{
    match options.epoch {
        None => Ok(None),
        Some(EpochSource::Number(epoch)) => Ok(Some(epoch)),
        Some(EpochSource::File(path)) => match next_epoch(rt, path) {
            Ok(epoch) => Ok(Some(epoch)),
            Err(fault) => {
                let _ = eprintln!(rt; "weblocks: epoch file: {fault}");
                Err(ExitCode::FAILURE)
            }
        },
    }
}

/// Whether the status may be shown where that is asked for.
fn check_status<'a>(options: &DaemonOptions<'_>) -> Result<(), EntryFault<'a>> {
    match options.status {
        None => Ok(()),
        Some(address) => check_address(address, options.token_file.is_some(), options.is_open),
    }
}

/// The status server that is asked for, listening; or why it doesn't, as a line, and the status.
fn listen_for_status<R>(
    rt: &R,
    options: &DaemonOptions<'_>,
) -> Result<Option<StatusServer>, ExitCode>
where
    R: Net + Eprint + AllocGlobal,
{
    let Some(address) = options.status else {
        return Ok(None);
    };
    match StatusServer::bind(rt, rt.alloc(), address, options.status_hosts.as_slice()) {
        Ok(server) => Ok(Some(server)),
        Err(_) => {
            let _ = eprintln!(rt; "weblocks: cannot listen on {address}");
            Err(ExitCode::FAILURE)
        }
    }
}

/// Says where the daemon listens, and where it shows its status.
fn tell_places<R: Print>(
    rt: &R,
    places: &[Place<'_>],
    status: Option<&StatusServer>,
) -> io::Result<()> {
    for place in places {
        println!(rt; "listening {place}")?;
    }
    if let Some(status) = status {
        println!(rt; "status {}", status.address())?;
    }
    Ok(())
}

/// Serves until it is stopped, or standard input ends where that is asked for.
pub fn daemon<R>(rt: &R, options: &DaemonOptions<'_>) -> ExitCode
where
    R: Net + Threads + Wait + Clock + Files<File = File, Dir: Send> + Sync,
    R: io::Input + Print + Eprint + RandomSource + AllocGlobal,
{
    let mut file = options.token_file.map(TokenFile::new);
    let rules = match rules_of(rt, options, file.as_mut()) {
        Ok(rules) => rules,
        Err(fault) => return fail(rt, fault),
    };
    // (before the epoch's file is changed)
    if let Err(fault) = check_status(options) {
        return fail(rt, fault);
    }
    let epoch = match begin_epoch(rt, options) {
        Ok(epoch) => epoch,
        Err(code) => return code,
    };
    let listening = match Listening::new(rt, options.listen.as_slice()) {
        Ok(listening) => listening,
        Err(fault) => return fail(rt, fault),
    };
    let status = match listen_for_status(rt, options) {
        Ok(status) => status,
        Err(code) => return code,
    };
    if tell_places(rt, listening.places.as_slice(), status.as_ref()).is_err() {
        return fail(rt, "cannot write after connection 0");
    }
    let setup = Setup {
        loops: loops_of(rt, options),
        places: places_for(options.connections, options.per_address),
        managers: options.managers as usize,
        limits: Limits::for_idle(options.idle),
        rules,
        tokens: watched_tokens(options, file),
        epoch,
        while_input: options.while_input,
        status,
    };
    run(rt, options, listening, setup)
}

/// Serves what comes in.
fn run<'a, R>(
    rt: &'a R,
    options: &DaemonOptions<'_>,
    listening: Listening<'a, R>,
    setup: Setup<'_>,
) -> ExitCode
where
    R: Net + Threads + Wait + Clock + Files<File = File, Dir: Send> + Sync,
    R: io::Input + Print + Eprint + RandomSource + AllocGlobal,
{
    let log = Logged::new(rt, options.log, Console(rt));
    let log = log.with_target("weblocks");
    let Listening {
        listeners,
        places,
        files,
    } = listening;
    for place in &places {
        info!(log; "listening on {place}");
    }
    info!(log; "started: {} loops", setup.loops);
    let served = serve(rt, &log, listeners, setup);
    // Nobody listens any more.
    drop(files);
    match served {
        Ok(()) => {
            info!(log; "stopped");
            ExitCode::SUCCESS
        }
        Err(fault) => fail(rt, fault),
    }
}
