//! What `clap` makes of a verb and the words behind it.
ghost use Rattle.std.specs.Prelude.{◌≡◌, IfOk, false, map, option_map, string_bytes};
ghost use Rattle.clap.specs.Words.{FailsBy, HasMatchesOf, app_of, fault_of, subcommand_rows_of};
ghost use Rattle.clap.specs.declared.builder.command.Command.TheViews.{out-Command};
ghost use Rattle.varsvc.specs.Cli.{cli, operand_app, operand_in, refusal_of};

use crate::words::UsageFault;
use clap::error::ErrorKind;
use clap::{Arg, ArgMatches, Command, Error};
use std::alloc::{AllocError, Global};

fn operand_command<'a>(
    alloc: Global,
    name: &'a str,
    operand: &'a str,
) -> Result<Command<'a>, AllocError>
    ensures app { IfOk result (λ command. app_of command ≡ operand_app name.entry.now operand.entry.now) }
    ensures local { IfOk result (λ command. (out-Command command).has_globals ≡ false) }
{
    let operand = Arg::new(alloc, operand).required(true);
    Command::new(alloc, name).arg(operand)
}

fn command<'a>(alloc: Global) -> Result<Command<'a>, AllocError>
    ensures { IfOk result (λ command. app_of command ≡ cli) }
{
    let run = operand_command(alloc, "run", "image")?;
    let list = operand_command(alloc, "list", "image")?;
    let check = operand_command(alloc, "check", "image")?;
    let format = operand_command(alloc, "format", "image")?;
    let make = operand_command(alloc, "make", "number")?;
    let work = operand_command(alloc, "work", "number")?;
    let audit = operand_command(alloc, "audit", "image")?;
    let bare = Command::new(alloc, "varsvc")
        .no_binary_name(true)
        .disable_help_flag(true)
        .disable_help_subcommand(true)
        .disable_version_flag(true);
    bare.subcommand(run)?
        .subcommand(list)?
        .subcommand(check)?
        .subcommand(format)?
        .subcommand(make)?
        .subcommand(work)?
        .subcommand(audit)
}

/// Parses a verb and the words behind it.
pub fn parse<'a>(alloc: Global, words: &'a [String]) -> Result<ArgMatches<'a>, Error>
    ensures matches { IfOk result (HasMatchesOf cli (map string_bytes words.entry.now)) }
    ensures kinds { FailsBy (fault_of cli (map string_bytes words.entry.now)) result }
{
    let command = command(alloc)?;
    command.try_get_matches_from(words)
}

/// The word of this name that was read behind a verb.
pub fn operand_in<'a>(matches: &ArgMatches<'a>, name: &str) -> Option<&'a str>
    ensures { option_map (λ text. text.now) result ≡ operand_in name.now (subcommand_rows_of matches.now) }
{
    let (_, operand) = matches.subcommand()?;
    operand.get_str(name)
}

/// Why words are refused, by the kind of the error.
pub fn refusal_of(kind: ErrorKind) -> UsageFault
    ensures { result ≡ refusal_of kind }
{
    match kind {
        ErrorKind::MissingRequiredArgument => UsageFault::Missing { want: 1, have: 0 },
        _ => UsageFault::Extra { at: 2 },
    }
}
