//! The job that the words of the command line ask for.

ghost use Rattle.std.specs.Prelude.{◌≡◌, [], map, IfOk, IfErr, IfSome, IsOk, IsSome, OnOk, Some, codes};
ghost use Rattle.clap.specs.Words.{fault_of, found_of, kind_of, rows_of, subcommand_name_of, subcommand_of};
ghost use Rattle.clap.specs.Words.{subcommand_rows_of};
ghost use Rattle.wl_cli.specs.Words.{weblocks_app, HasNumber, IsJob, IsUsageFault};
ghost use Rattle.wl_cli.specs.inner.Words.{IsUsageError};

use crate::arguments::OptionFault;
use crate::command::weblocks_command;
use crate::daemon::{DaemonOptions, daemon_in};
use crate::endpoint::wrong_endpoint;
use clap::error::ErrorKind;
use clap::{ArgMatches, Error};
use std::alloc::{AllocError, Global};

/// What the program is asked to do.
#[derive(Debug, Drop)]
pub enum Job<'a> {
    /// Answer the script on standard input.
    Run,
    /// Do the script on standard input, and audit the journal of each manager.
    Audit,
    /// Do the script on standard input, and draw what became of its requests.
    Timeline,
    /// Serve on this port until so many clients have left.
    Serve { port: u16, clients: u32 },
    /// Send standard input to the server at this port.
    Client { port: u16 },
    /// Serve, and push grants, until it is stopped.
    Daemon(DaemonOptions<'a>),
}

/// Why the words ask for no job.
#[derive(Debug, Drop)]
pub enum UsageFault {
    /// They ask for help or the version, or they are wrong. The error is to be shown.
    Usage(Error),
    /// A growth was refused.
    Memory,
}

/// What the words ask for. The first is the program's name.
pub fn job_of<'a>(alloc: Global, words: &'a [&'a str]) -> Result<Job<'a>, UsageFault>
    ensures job { IfOk result (IsJob (subcommand_of weblocks_app (map (λ s. s.now) words.entry.now))) }
    // A job is given just where the words have no fault, and a fault is one that they have.
    ensures right { OnOk result (fault_of weblocks_app (map (λ s. s.now) words.entry.now) ≡ []) }
    ensures wrong { IfErr result (IsUsageFault (fault_of weblocks_app (map (λ s. s.now) words.entry.now))
        (subcommand_of weblocks_app (map (λ s. s.now) words.entry.now))) }
{
    let Ok(command) = weblocks_command(alloc) else {
        return Err(UsageFault::Memory);
    };
    match command.try_get_matches_from(words) {
        Ok(matches) => job_in(alloc, &matches),
        Err(error) if error.kind() == ErrorKind::OutOfMemory => Err(UsageFault::Memory),
        Err(error) => Err(UsageFault::Usage(error)),
    }
}

/// The job of the subcommand that the matches have.
fn job_in<'a>(alloc: Global, matches: &ArgMatches<'a>) -> Result<Job<'a>, UsageFault>
    ensures job { IfOk result (IsJob (subcommand_rows_of matches.now)) }
    ensures wrong { IfErr result (IsUsageFault [] (subcommand_rows_of matches.now)) }
    ensures run { subcommand_name_of matches.now ≡ Some (codes "run") → IsOk result }
    ensures audit { subcommand_name_of matches.now ≡ Some (codes "audit") → IsOk result }
    ensures timeline { subcommand_name_of matches.now ≡ Some (codes "timeline") → IsOk result }
{
    match matches.subcommand() {
        Some(("daemon", options)) => match daemon_in(alloc, options) {
            Ok(options) => Ok(Job::Daemon(options)),
            Err(fault) => Err(wrong_option(alloc, options, fault)),
        },
        // Right words have a job: where one is missing, the command refused them.
        _ => plain_job_in(matches).ok_or(UsageFault::Memory),
    }
}

/// What is said of a wrong option.
fn wrong_option(alloc: Global, options: &ArgMatches<'_>, fault: OptionFault) -> UsageFault
    ensures usage { IsUsageError fault result }
    ensures memory { fault ≡ OptionFault.Memory → result ≡ UsageFault.Memory }
{
    let error = match fault {
        OptionFault::Memory => return UsageFault::Memory,
        OptionFault::Listen => {
            let option = "listen <ADDRESS:PORT|unix:PATH>";
            let why = "neither an address and a port nor a socket's path";
            value_error(alloc, wrong_endpoint(options), option, why)
        }
        OptionFault::Status => {
            let text = options.get_str("status").unwrap_or("");
            value_error(
                alloc,
                text,
                "status <ADDRESS:PORT>",
                "not an address and a port",
            )
        }
        OptionFault::Log => {
            let text = options.get_str("log").unwrap_or("");
            value_error(alloc, text, "log <LEVEL>", "not a level")
        }
        OptionFault::TwoEpochs => two_epochs_error(alloc),
    };
    match error {
        Ok(error) => UsageFault::Usage(error),
        Err(AllocError) => UsageFault::Memory,
    }
}

/// The error of an option's value.
fn value_error(alloc: Global, text: &str, option: &str, why: &str) -> Result<Error, AllocError>
    ensures { IfOk result (λ error. kind_of error ≡ ErrorKind.ValueValidation) }
{
    let message = format!(in alloc; "invalid value '{text}' for '--{option}': {why}")?;
    command_error(alloc, ErrorKind::ValueValidation, message.as_str())
}

/// The error of two options that each give the epoch.
fn two_epochs_error(alloc: Global) -> Result<Error, AllocError>
    ensures { IfOk result (λ error. kind_of error ≡ ErrorKind.ArgumentConflict) }
{
    let message = "the argument '--epoch <NUMBER>' cannot be used with '--epoch-file <FILE>'";
    command_error(alloc, ErrorKind::ArgumentConflict, message)
}

/// An error of the program's command.
fn command_error(alloc: Global, kind: ErrorKind, message: &str) -> Result<Error, AllocError>
    ensures { IfOk result (λ error. kind_of error ≡ kind) }
{
    weblocks_command(alloc)?.error(kind, message)
}

/// The job of the subcommand that the matches have, if it is none with options of many kinds.
fn plain_job_in<'a>(matches: &ArgMatches<'_>) -> Option<Job<'a>>
    ensures job { IfSome result (IsJob (subcommand_rows_of matches.now)) }
    ensures run { subcommand_name_of matches.now ≡ Some (codes "run") → IsSome result }
    ensures audit { subcommand_name_of matches.now ≡ Some (codes "audit") → IsSome result }
    ensures timeline { subcommand_name_of matches.now ≡ Some (codes "timeline") → IsSome result }
{
    match matches.subcommand() {
        Some(("run", _)) => Some(Job::Run),
        Some(("audit", _)) => Some(Job::Audit),
        Some(("timeline", _)) => Some(Job::Timeline),
        Some(("serve", options)) => serve_in(options),
        Some(("client", options)) => client_in(options),
        _ => None,
    }
}

/// The number of the option `port`.
fn port_in(options: &ArgMatches<'_>) -> Option<u16>
    ensures { IfSome result (HasNumber (codes "port") (rows_of (found_of options.now))) }
{
    options.get_one::<u16>("port")
}

/// The number of the option `clients`.
fn clients_in(options: &ArgMatches<'_>) -> Option<u32>
    ensures { IfSome result (HasNumber (codes "clients") (rows_of (found_of options.now))) }
{
    options.get_one::<u32>("clients")
}

/// `clap` has tested the ranges; that the options are there, and in range, is tested again, since no contract of its
/// says so.
fn serve_in<'a>(options: &ArgMatches<'_>) -> Option<Job<'a>>
    ensures { IfSome result (IsJob (Some (codes "serve", rows_of (found_of options.now)))) }
{
    let port = port_in(options)?;
    let clients = clients_in(options)?;
    if port >= 1 && (1..=10_000).contains(&clients) {
        Some(Job::Serve { port, clients })
    } else {
        None
    }
}

fn client_in<'a>(options: &ArgMatches<'_>) -> Option<Job<'a>>
    ensures { IfSome result (IsJob (Some (codes "client", rows_of (found_of options.now)))) }
{
    let port = port_in(options)?;
    if port >= 1 {
        Some(Job::Client { port })
    } else {
        None
    }
}
