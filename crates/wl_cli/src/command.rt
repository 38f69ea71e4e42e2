//! The program's command, with its jobs as subcommands, as `clap` reads words for it.

ghost use Rattle.std.specs.Prelude.{◌≡◌, pos, IfOk, codes, false};
ghost use Rattle.clap.specs.Words.{app_of, rule_of};
ghost use Rattle.clap.specs.declared.builder.command.Command.TheViews.{out-Command as fields_of};
ghost use Rattle.clap.specs.declared.builder.value_parser.ValueParser.TheVariants as values;
ghost use Rattle.wl_cli.specs.Words.{weblocks_app, audit_app, client_app, run_app, scripts_app, serve_app};
ghost use Rattle.wl_cli.specs.Words.{timeline_app, number_rule};

use crate::daemon_command::daemon_command;
use crate::parts::{add_option, add_subcommand, command_named, value};
use crate::texts::{
    ABOUT, AUDIT_ABOUT, AUDIT_EXAMPLE, CLIENT_ABOUT, CLIENT_EXAMPLE, CLIENTS, EXAMPLE, LISTEN_PORT,
    RUN_ABOUT, RUN_EXAMPLE, SERVE_ABOUT, SERVE_EXAMPLE, SERVER_PORT, TIMELINE_ABOUT,
    TIMELINE_EXAMPLE, VERSION,
};
use clap::builder::ValueParser;
use clap::{Arg, Command};
use std::alloc::{AllocError, Global};

/// The program's command, with each job as a subcommand.
pub fn weblocks_command<'a>(alloc: Global) -> Result<Command<'a>, AllocError>
    ensures app { IfOk result (λ c. app_of c ≡ weblocks_app) }
    ensures local { IfOk result (λ c. (fields_of c).has_globals ≡ false) }
{
    let command = script_commands(alloc);
    let command = add_subcommand(command, serve_command(alloc));
    let command = add_subcommand(command, client_command(alloc));
    add_subcommand(command, daemon_command(alloc))
}

/// The program's command, with the jobs that do scripts.
fn script_commands<'a>(alloc: Global) -> Result<Command<'a>, AllocError>
    ensures app { IfOk result (λ c. app_of c ≡ scripts_app) }
    ensures local { IfOk result (λ c. (fields_of c).has_globals ≡ false) }
{
    let command = command_named(alloc, "weblocks", ABOUT, EXAMPLE)
        .version(VERSION)
        .subcommand_required(true);
    let command = add_subcommand(Ok(command), Ok(run_command(alloc)));
    let command = add_subcommand(command, Ok(audit_command(alloc)));
    add_subcommand(command, Ok(timeline_command(alloc)))
}

fn run_command<'a>(alloc: Global) -> Command<'a>
    ensures app { app_of result ≡ run_app }
    ensures local { (fields_of result).has_globals ≡ false }
{
    command_named(alloc, "run", RUN_ABOUT, RUN_EXAMPLE)
}

fn audit_command<'a>(alloc: Global) -> Command<'a>
    ensures app { app_of result ≡ audit_app }
    ensures local { (fields_of result).has_globals ≡ false }
{
    command_named(alloc, "audit", AUDIT_ABOUT, AUDIT_EXAMPLE)
}

fn timeline_command<'a>(alloc: Global) -> Command<'a>
    ensures app { app_of result ≡ timeline_app }
    ensures local { (fields_of result).has_globals ≡ false }
{
    command_named(alloc, "timeline", TIMELINE_ABOUT, TIMELINE_EXAMPLE)
}

/// A required option that has a number from 1. Help has a name for the number.
fn required_number<'a>(
    alloc: Global,
    name: &'a str,
    value_name: &'a str,
    help: &'a str,
    parser: ValueParser<'a>,
) -> Arg<'a>
    ensures rule { (most : _) → parser.entry ≡ values.Signed (pos 1) (pos most)
        → rule_of result ≡ number_rule name.entry.now most }
    ensures local { result.global ≡ false }
{
    value(alloc, name, value_name, help, parser).required(true)
}

fn port_option<'a>(alloc: Global, help: &'a str) -> Arg<'a>
    ensures rule { rule_of result ≡ number_rule (codes "port") 65535 }
    ensures local { result.global ≡ false }
{
    required_number(
        alloc,
        "port",
        "PORT",
        help,
        clap::value_parser!(u16).range(1..),
    )
}

fn clients_option<'a>(alloc: Global) -> Arg<'a>
    ensures rule { rule_of result ≡ number_rule (codes "clients") 10000 }
    ensures local { result.global ≡ false }
{
    required_number(
        alloc,
        "clients",
        "NUMBER",
        CLIENTS,
        clap::value_parser!(u32).range(1..10_001),
    )
}

fn serve_command<'a>(alloc: Global) -> Result<Command<'a>, AllocError>
    ensures app { IfOk result (λ c. app_of c ≡ serve_app) }
    ensures local { IfOk result (λ c. (fields_of c).has_globals ≡ false) }
{
    let command = command_named(alloc, "serve", SERVE_ABOUT, SERVE_EXAMPLE);
    let command = add_option(Ok(command), port_option(alloc, LISTEN_PORT));
    add_option(command, clients_option(alloc))
}

fn client_command<'a>(alloc: Global) -> Result<Command<'a>, AllocError>
    ensures app { IfOk result (λ c. app_of c ≡ client_app) }
    ensures local { IfOk result (λ c. (fields_of c).has_globals ≡ false) }
{
    let command = command_named(alloc, "client", CLIENT_ABOUT, CLIENT_EXAMPLE);
    add_option(Ok(command), port_option(alloc, SERVER_PORT))
}
