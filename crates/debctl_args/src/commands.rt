//! The commands as `clap` knows them, made of their rows.

ghost use Rattle.std.specs.Prelude.{◌≡◌, ◌++◌, List, [], None, Some, IfOk, false, is_some, map};
ghost use Rattle.clap.specs.Simple.{new_app};
ghost use Rattle.clap.specs.Words.{rule_of};
ghost use Rattle.debctl_args.specs.Commands.{app_of_row, commands, debctl_app, has_row, program_of, program_with, row_in, rule_in, CommandRow, IsShaped};

use crate::command_help::help_after;
use crate::options::{Argument, Form};
use crate::rows::{Row, file_commands, package_commands};
use clap::{Arg, ArgAction, Command};
use deb_base::{Doc, is_single};
use std::alloc::{AllocError, Global};

/// What the help of the program prints after its commands.
const DEBCTL_HELP: &str = "\
Exit statuses:
  0  success, or the answer is yes
  1  the answer is no; for `diff`: the files differ; for `query`: a group is unmet;
     for `unmet`: a group is `unmet` or `unsure`; for `healthy`: the set isn't healthy;
     for `installable`: a package may not be installable, or a source not built;
     for `select`: no paragraph is picked, or one lacks a field
  2  a file, a version, a relation, an architecture or a profile is refused:
     standard error has `line N: CODE NAME`. Line 0 means a command-line
     argument. `same`, `diff`, `unmet` and `installable` of sources write
     `first: ` or `second: ` before the line of a file, and commands on several
     files `index K: `. `explain`, `audit` and `check --all` report errors on
     standard output. A file without what `--complete` or `--least` demands is
     refused with a line `incomplete: `
  3  wrong arguments, out of memory, or a failed read or write

Put `--` before a version or a path that begins with a hyphen:
  $ debctl canon-version -- -1-1
  -1-1

`debctl help COMMAND` describes a command and has an example, and `debctl help kinds`
lists the kinds of files.";

/// The help of `--kind`: a line for each kind of document.
pub(crate) fn kinds_help(alloc: Global) -> Result<String, AllocError> {
    let mut help = String::from_str(alloc, "The kind of file; the default is packages")?;
    for doc in Doc::ALL {
        let paragraphs = if is_single(*doc) {
            "one paragraph"
        } else {
            "any number of paragraphs"
        };
        let (word, about) = (doc.word(), doc.about());
        help.push_str(&format!(in alloc; "\n  {word}: {about}; {paragraphs}")?)?;
    }
    Ok(help)
}

/// The program: `debctl`, with its commands. `kinds` is the help of `--kind`.
pub(crate) fn debctl_command<'a>(alloc: Global, kinds: &'a str) -> Result<Command<'a>, AllocError>
    ensures { IfOk result (IsShaped debctl_app) }
{
    let command = with_commands(alloc, bare_command(alloc), file_commands(), kinds)?;
    with_commands(alloc, command, package_commands(), kinds)
}

/// The program with the commands of more rows.
fn with_commands<'a>(
    alloc: Global,
    mut command: Command<'a>,
    rows: &'static [Row],
    kinds: &'a str,
) -> Result<Command<'a>, AllocError>
    ensures { IfOk result (λ made. (before : List CommandRow)
        → IsShaped (program_of before) command.entry
        → IsShaped (program_of (before ++ map row_in rows.now)) made) }
{
    for row in rows {
        let below = command_of(alloc, row, kinds)?;
        command = command.subcommand(below)?;
    }
    Ok(command)
}

/// The program without its commands.
fn bare_command<'a>(alloc: Global) -> Command<'a>
    ensures { IsShaped (program_with []) result }
{
    Command::new(alloc, "debctl")
        .version("0.1.0")
        .about("Checks, normalises, compares, sorts and queries Debian control data and versions")
        .after_help(DEBCTL_HELP)
        .subcommand_required(true)
        .disable_help_subcommand(true)
}

/// The command of a row, with its options and arguments.
pub(crate) fn command_of<'a>(
    alloc: Global,
    row: &'static Row,
    kinds: &'a str,
) -> Result<Command<'a>, AllocError>
    ensures { IfOk result (IsShaped (app_of_row (row_in row.now))) }
{
    let mut command = named_command(alloc, row);
    for argument in row.takes {
        command = command.arg(arg_of(alloc, argument, kinds))?;
    }
    Ok(command)
}

/// The command of a row, without its options and arguments.
fn named_command<'a>(alloc: Global, row: &'static Row) -> Command<'a>
    ensures { IsShaped (new_app row.now.name.now) result }
{
    let command = Command::new(alloc, row.name).about(row.about);
    match help_after(row.name) {
        Some(help) => command.after_help(help),
        None => command,
    }
}

/// An option or an argument as `clap` knows it.
fn arg_of<'a>(alloc: Global, argument: &'static Argument, kinds: &'a str) -> Arg<'a>
    ensures rule { rule_of result ≡ rule_in argument.now }
    ensures local { result.global ≡ false }
{
    let arg = Arg::new(alloc, argument.id).help(argument.help.unwrap_or(kinds));
    match argument.form {
        Form::Flag => option_of(arg, argument).action(ArgAction::SetTrue),
        Form::Value => option_of(arg, argument).value_name(argument.shown),
        Form::RequiredValue => option_of(arg, argument)
            .value_name(argument.shown)
            .required(true),
        Form::Values => option_of(arg, argument)
            .value_name(argument.shown)
            .action(ArgAction::Append),
        Form::Word => arg.value_name(argument.shown),
        Form::RequiredWord => arg.value_name(argument.shown).required(true),
        Form::Words => arg.value_name(argument.shown).num_args(1..),
        Form::RequiredWords => arg.value_name(argument.shown).num_args(1..).required(true),
    }
}

/// An option with its names.
fn option_of<'a>(arg: Arg<'a>, argument: &'static Argument) -> Arg<'a>
    requires { arg.short ≡ None }
    ensures { result ≡ record arg.entry
        { short = argument.now.short; long = Some argument.now.id } }
{
    let named = arg.long(argument.id);
    match argument.short {
        Some(short) => named.short(short),
        None => named,
    }
}

/// The row of the command with this name, if there is one.
pub(crate) fn row_named(name: &str) -> Option<&'static Row>
    ensures { is_some result ≡ has_row name.now commands }
{
    match row_among(name, file_commands()) {
        Some(row) => Some(row),
        None => row_among(name, package_commands()),
    }
}

/// The first of these rows with this name, if there is one.
fn row_among<'a>(name: &str, rows: &'a [Row]) -> Option<&'a Row>
    ensures { is_some result ≡ has_row name.now (map row_in rows.now) }
{
    rows.iter().find(|row| row.name == name)
}
