//! The subcommand `daemon`, as `clap` reads words for it.

ghost use Rattle.std.specs.Prelude.{◌≡◌, IfOk, false};
ghost use Rattle.clap.specs.Words.{app_of};
ghost use Rattle.clap.specs.declared.builder.command.Command.TheViews.{out-Command as fields_of};
ghost use Rattle.wl_cli.specs.Daemon.{admission_app, daemon_app, epoch_app, limits_app, listen_app, status_app};

use crate::daemon::{MOST_CONNECTIONS, MOST_IDLE, MOST_LOOPS, MOST_MANAGERS};
use crate::epoch::MOST_EPOCH;
use crate::parts::{add_option, command_named, flag, number, repeatable, value};
use crate::texts::{
    ALLOW_ORIGIN, CONNECTIONS, DAEMON_ABOUT, DAEMON_EXAMPLE, EPOCH, EPOCH_FILE, IDLE, LISTEN, LOG,
    LOOPS, MANAGERS, OPEN, PER_ADDRESS, SHARDED, STATUS, STATUS_HOST, TOKEN_FILE, WHILE_INPUT,
};
use clap::Command;
use clap::builder::ValueParser;
use std::alloc::{AllocError, Global};

/// Who may come in, from where.
fn with_admission<'a>(
    alloc: Global,
    command: Result<Command<'a>, AllocError>,
) -> Result<Command<'a>, AllocError>
    ensures app { IfOk command.entry (λ c. app_of c ≡ limits_app) → IfOk result (λ c. app_of c ≡ admission_app) }
    ensures local { IfOk command.entry (λ c. (fields_of c).has_globals ≡ false)
        → IfOk result (λ c. (fields_of c).has_globals ≡ false) }
{
    let file = ValueParser::NonEmptyString;
    let origin = repeatable(
        alloc,
        "allow-origin",
        "ORIGIN",
        ALLOW_ORIGIN,
        ValueParser::string(),
    );
    let command = add_option(
        command,
        value(alloc, "token-file", "FILE", TOKEN_FILE, file),
    );
    let command = add_option(command, flag(alloc, "open", OPEN));
    let command = add_option(command, flag(alloc, "sharded", SHARDED));
    add_option(command, origin)
}

/// Where the status is shown, and by which names.
fn with_status<'a>(
    alloc: Global,
    command: Result<Command<'a>, AllocError>,
) -> Result<Command<'a>, AllocError>
    ensures app { IfOk command.entry (λ c. app_of c ≡ admission_app) → IfOk result (λ c. app_of c ≡ status_app) }
    ensures local { IfOk command.entry (λ c. (fields_of c).has_globals ≡ false)
        → IfOk result (λ c. (fields_of c).has_globals ≡ false) }
{
    let address = ValueParser::string();
    let host = repeatable(
        alloc,
        "status-host",
        "NAME",
        STATUS_HOST,
        ValueParser::NonEmptyString,
    );
    let command = add_option(
        command,
        value(alloc, "status", "ADDRESS:PORT", STATUS, address),
    );
    add_option(command, host)
}

/// What gives the epoch of fencing tokens.
fn with_epoch<'a>(
    alloc: Global,
    command: Result<Command<'a>, AllocError>,
) -> Result<Command<'a>, AllocError>
    ensures app { IfOk command.entry (λ c. app_of c ≡ status_app) → IfOk result (λ c. app_of c ≡ epoch_app) }
    ensures local { IfOk command.entry (λ c. (fields_of c).has_globals ≡ false)
        → IfOk result (λ c. (fields_of c).has_globals ≡ false) }
{
    let epoch = ValueParser::signed(1, MOST_EPOCH);
    let file = ValueParser::NonEmptyString;
    let command = add_option(command, value(alloc, "epoch", "NUMBER", EPOCH, epoch));
    add_option(
        command,
        value(alloc, "epoch-file", "FILE", EPOCH_FILE, file),
    )
}

/// How many of what.
fn with_limits<'a>(
    alloc: Global,
    command: Result<Command<'a>, AllocError>,
) -> Result<Command<'a>, AllocError>
    ensures app { IfOk command.entry (λ c. app_of c ≡ listen_app) → IfOk result (λ c. app_of c ≡ limits_app) }
    ensures local { IfOk command.entry (λ c. (fields_of c).has_globals ≡ false)
        → IfOk result (λ c. (fields_of c).has_globals ≡ false) }
{
    let connections = number(alloc, "connections", CONNECTIONS, MOST_CONNECTIONS);
    let command = add_option(command, connections.default_value("10000"));
    let per_address = number(alloc, "per-address", PER_ADDRESS, MOST_CONNECTIONS);
    let command = add_option(command, per_address);
    let managers = number(alloc, "managers", MANAGERS, MOST_MANAGERS);
    let command = add_option(command, managers.default_value("100000"));
    let seconds = ValueParser::signed(1, i64::from(MOST_IDLE));
    let idle = value(alloc, "idle", "SECONDS", IDLE, seconds);
    let command = add_option(command, idle.default_value("30"));
    add_option(command, number(alloc, "loops", LOOPS, MOST_LOOPS))
}

pub fn daemon_command<'a>(alloc: Global) -> Result<Command<'a>, AllocError>
    ensures app { IfOk result (λ c. app_of c ≡ daemon_app) }
    ensures local { IfOk result (λ c. (fields_of c).has_globals ≡ false) }
{
    let listen = repeatable(
        alloc,
        "listen",
        "ADDRESS:PORT|unix:PATH",
        LISTEN,
        ValueParser::string(),
    );
    let command = command_named(alloc, "daemon", DAEMON_ABOUT, DAEMON_EXAMPLE);
    let command = add_option(Ok(command), listen.default_value("127.0.0.1:8080"));
    let command = with_limits(alloc, command);
    let command = with_admission(alloc, command);
    let command = with_status(alloc, command);
    let command = with_epoch(alloc, command);
    let command = add_option(command, flag(alloc, "while-input", WHILE_INPUT));
    let log = value(alloc, "log", "LEVEL", LOG, ValueParser::string());
    add_option(command, log.default_value("info"))
}
