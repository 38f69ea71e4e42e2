//! The parts of which the program's command is made.

ghost use Rattle.std.specs.Prelude.{◌≡◌, IfOk, IsOkAnd, Some, false};
ghost use Rattle.clap.specs.Words.{AddsArg, AddsSubcommand, app_of, new_app, new_rule, rule_of};
ghost use Rattle.clap.specs.declared.builder.command.Command.TheViews.{out-Command as fields_of};
ghost use Rattle.wl_cli.specs.Daemon.{again_rule, flag_rule, option_rule, value_rule};

use clap::builder::ValueParser;
use clap::{Arg, ArgAction, Command};
use std::alloc::{AllocError, Global};

/// A command with what its help says first and last.
pub fn command_named<'a>(
    alloc: Global,
    name: &'a str,
    about: &'a str,
    example: &'a str,
) -> Command<'a>
    ensures app { app_of result ≡ new_app name.entry.now }
    ensures local { (fields_of result).has_globals ≡ false }
{
    Command::new(alloc, name).about(about).after_help(example)
}

/// The command with one more option. It takes a command that may be missing, so that whoever adds several options has
/// one way out, and not one after each.
pub fn add_option<'a>(
    command: Result<Command<'a>, AllocError>,
    option: Arg<'a>,
) -> Result<Command<'a>, AllocError>
    ensures { IfOk result (λ new. IsOkAnd command.entry (λ old. AddsArg old option.entry new)) }
{
    command?.arg(option)
}

/// The command with one more subcommand, where both are there.
pub fn add_subcommand<'a>(
    command: Result<Command<'a>, AllocError>,
    subcommand: Result<Command<'a>, AllocError>,
) -> Result<Command<'a>, AllocError>
    ensures { IfOk result (λ new. IsOkAnd command.entry (λ old.
        IsOkAnd subcommand.entry (λ sub. AddsSubcommand old sub new))) }
{
    command?.subcommand(subcommand?)
}

/// An option by its name, which takes nothing yet.
fn option_named<'a>(alloc: Global, name: &'a str, help: &'a str) -> Arg<'a>
    ensures rule { rule_of result ≡ record (new_rule name.entry.now) { long = Some name.entry.now } }
    ensures local { result.global ≡ false }
{
    Arg::new(alloc, name).long(name).help(help)
}

/// An option with one value.
pub fn value<'a>(
    alloc: Global,
    name: &'a str,
    value_name: &'a str,
    help: &'a str,
    parser: ValueParser<'a>,
) -> Arg<'a>
    ensures rule { rule_of result ≡ value_rule name.entry.now parser.entry }
    ensures local { result.global ≡ false }
{
    option_named(alloc, name, help)
        .value_name(value_name)
        .action(ArgAction::Set)
        .value_parser(parser)
}

/// An option with one value that may be given again.
pub fn repeatable<'a>(
    alloc: Global,
    name: &'a str,
    value_name: &'a str,
    help: &'a str,
    parser: ValueParser<'a>,
) -> Arg<'a>
    ensures rule { rule_of result ≡ again_rule name.entry.now parser.entry }
    ensures local { result.global ≡ false }
{
    value(alloc, name, value_name, help, parser).action(ArgAction::Append)
}

/// An option with a number from 1 to `most`.
pub fn number<'a>(alloc: Global, name: &'a str, help: &'a str, most: u32) -> Arg<'a>
    ensures rule { rule_of result ≡ option_rule name.entry.now most }
    ensures local { result.global ≡ false }
{
    value(
        alloc,
        name,
        "NUMBER",
        help,
        ValueParser::signed(1, i64::from(most)),
    )
}

/// An option without a value.
pub fn flag<'a>(alloc: Global, name: &'a str, help: &'a str) -> Arg<'a>
    ensures rule { rule_of result ≡ flag_rule name.entry.now }
    ensures local { result.global ≡ false }
{
    option_named(alloc, name, help).action(ArgAction::SetTrue)
}
