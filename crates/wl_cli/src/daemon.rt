//! What the daemon is asked for.

ghost use Rattle.std.specs.Prelude.{◌≡◌, IfErr, IfOk, OnErr, codes};
ghost use Rattle.clap.specs.Words.{found_of, one_of, rows_of};
ghost use Rattle.wl_cli.specs.Endpoints.{HasWrongEndpoint};
ghost use Rattle.wl_cli.specs.inner.Daemon.{HasNumbers};
ghost use Rattle.wl_cli.specs.Daemon.{AsksFor, HasNoAddress, HasNoLevel, HasTwoEpochs, MayHaveAddress};

use crate::arguments::{OptionFault, number_if_any, number_in, texts_in};
use crate::endpoint::{Endpoint, endpoints_in};
use crate::epoch::{EpochSource, epoch_in};
use clap::ArgMatches;
use log::LevelFilter;
use std::alloc::Global;
use std::net::SocketAddr;

/// The connections at most.
pub const MOST_CONNECTIONS: u32 = 1_000_000;

/// The managers at most.
pub const MOST_MANAGERS: u32 = 10_000_000;

/// The seconds of silence at most.
pub const MOST_IDLE: u32 = 86_400;

/// The event loops at most.
pub const MOST_LOOPS: u32 = 64;

/// What the daemon is asked for.
#[derive(Debug, Drop)]
pub struct DaemonOptions<'a> {
    /// Where to listen: at least one.
    pub listen: Vec<Endpoint<'a>>,
    /// The connections at once, 1 to 1,000,000.
    pub connections: u32,
    /// The connections at once from one address; none means a quarter of all, and all from this machine.
    pub per_address: Option<u32>,
    /// The managers at once, 1 to 10,000,000.
    pub managers: u32,
    /// The seconds of silence to a ping, 1 to 86,400. After twice as many a connection ends.
    pub idle: u32,
    /// The event loops, 1 to 64; none means one a core.
    pub loops: Option<u32>,
    /// The file that lists who may come in; none means all who reach it.
    pub token_file: Option<&'a str>,
    /// Whether it may listen beyond this machine without a token file.
    pub is_open: bool,
    /// Whether each connection may open URLs of one origin alone, which its handshake's target names.
    pub is_sharded: bool,
    /// The origins whose pages may open any URL. `*` is all.
    pub allow_origins: Vec<&'a str>,
    /// Where to show the status; none means nowhere. Port 0 is any that is free.
    pub status: Option<SocketAddr>,
    /// The names by which requests for the status may name it, beside those of this machine.
    pub status_hosts: Vec<&'a str>,
    /// What gives its epoch; none means that it gives no fencing tokens.
    pub epoch: Option<EpochSource<'a>>,
    /// Whether it ends with standard input.
    pub while_input: bool,
    /// What goes into its log.
    pub log: LevelFilter,
}

/// The address of `--status`, if it is given.
fn status_in(options: &ArgMatches<'_>) -> Result<Option<SocketAddr>, OptionFault>
    ensures ok { IfOk result (MayHaveAddress (codes "status") (rows_of (found_of options.now))) }
    ensures err { IfErr result (λ fault. fault ≡ OptionFault.Status) }
    ensures bad { OnErr result (HasNoAddress (one_of (codes "status") (rows_of (found_of options.now)))) }
{
    if options.get_str("status").is_none() {
        return Ok(None);
    }
    match options.get_one::<SocketAddr>("status") {
        Some(address) => Ok(Some(address)),
        None => Err(OptionFault::Status),
    }
}

/// What the daemon's options have as numbers.
#[derive(Clone, Copy)]
pub struct DaemonNumbers {
    connections: u32,
    per_address: Option<u32>,
    managers: u32,
    idle: u32,
    loops: Option<u32>,
}

/// The numbers of the options. They are read apart, where nothing is owned that each way out would drop.
fn numbers_in(options: &ArgMatches<'_>) -> Result<DaemonNumbers, OptionFault>
    ensures ok { IfOk result (HasNumbers (rows_of (found_of options.now))) }
    ensures err { IfErr result (λ fault. fault ≡ OptionFault.Memory) }
{
    Ok(DaemonNumbers {
        connections: number_in(options, "connections", MOST_CONNECTIONS)?,
        per_address: number_if_any(options, "per-address", MOST_CONNECTIONS)?,
        managers: number_in(options, "managers", MOST_MANAGERS)?,
        idle: number_in(options, "idle", MOST_IDLE)?,
        loops: number_if_any(options, "loops", MOST_LOOPS)?,
    })
}

/// What the options ask for.
pub fn daemon_in<'a>(
    alloc: Global,
    options: &ArgMatches<'a>,
) -> Result<DaemonOptions<'a>, OptionFault>
    ensures asked { IfOk result (AsksFor (rows_of (found_of options.now))) }
    ensures listen { IfErr result (λ fault. fault ≡ OptionFault.Listen
        → HasWrongEndpoint (rows_of (found_of options.now))) }
    ensures log { IfErr result (λ fault. fault ≡ OptionFault.Log
        → HasNoLevel (one_of (codes "log") (rows_of (found_of options.now)))) }
    ensures status { IfErr result (λ fault. fault ≡ OptionFault.Status
        → HasNoAddress (one_of (codes "status") (rows_of (found_of options.now)))) }
    ensures epochs { IfErr result (λ fault. fault ≡ OptionFault.TwoEpochs
        → HasTwoEpochs (rows_of (found_of options.now))) }
{
    if options.get_str("log").is_none() {
        return Err(OptionFault::Memory);
    }
    let Some(log) = options.get_one::<LevelFilter>("log") else {
        return Err(OptionFault::Log);
    };
    let listen = endpoints_in(alloc, options)?;
    let numbers = numbers_in(options)?;
    Ok(DaemonOptions {
        listen,
        connections: numbers.connections,
        per_address: numbers.per_address,
        managers: numbers.managers,
        idle: numbers.idle,
        loops: numbers.loops,
        token_file: options.get_str("token-file"),
        is_open: options.get_flag("open"),
        is_sharded: options.get_flag("sharded"),
        allow_origins: texts_in(alloc, options, "allow-origin")?,
        status: status_in(options)?,
        status_hosts: texts_in(alloc, options, "status-host")?,
        epoch: epoch_in(options)?,
        while_input: options.get_flag("while-input"),
        log,
    })
}
