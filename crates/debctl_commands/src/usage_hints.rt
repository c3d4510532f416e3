//! A second line on standard error after wrong arguments: the command, or the line of the shell,
//! that does what was meant.

use deb_base::{Fault, Sink, put_all, put_pieces};
use debctl_args::{UsageFault, job_of};
use std::alloc::{AllocError, Global};
use std::env;

/// The line for `help` of a word that isn't a command.
const COMMANDS: &[u8] = b"debctl: to see the commands: debctl help\n";

/// The line for an option that prints nothing, which no command has.
const QUIET: &[u8] = b"debctl: to see only the exit status, add >/dev/null 2>&1\n";

/// Returns the line that helps after wrong arguments, if there is one.
pub(crate) fn usage_hint(text: &str) -> Option<&'static [u8]> {
    match text {
        "usage: unknown kind" => Some(b"debctl: to see the kinds: debctl help kinds\n"),
        "usage: unknown command" => Some(COMMANDS),
        _ => match text.strip_prefix("error: unexpected argument '") {
            Some(rest) => argument_hint(rest),
            None => None,
        },
    }
}

/// Returns the line that helps after an unexpected argument; `rest` is the error of `clap` from
/// that argument on.
fn argument_hint(rest: &str) -> Option<&'static [u8]> {
    if rest.starts_with("-q'") || rest.starts_with("--quiet'") {
        Some(QUIET)
    } else if rest.starts_with("-") {
        None
    } else if rest.contains("Usage: debctl check ") {
        Some(b"debctl: to check several files: debctl audit PATH ..\n")
    } else {
        None
    }
}

/// Writes a line that helps after wrong arguments. The list of commands is left out if `clap` finds
/// a command whose name is similar to the argument of `help`.
pub(crate) fn put_usage_hint<E: Sink>(
    rt: &HostRuntime,
    hint: &[u8],
    err: &mut E,
) -> Result<(), Fault> {
    if hint == COMMANDS {
        if let Ok(words) = command_of_help(rt) {
            return put_similar(rt.alloc(), &words, err);
        }
    }
    put_all(err, hint)
}

/// Returns the program's name and the argument of `help`, as if that were the command.
fn command_of_help(rt: &HostRuntime) -> Result<Vec<String>, AllocError> {
    let mut words = Vec::new(rt.alloc());
    if let Ok(args) = env::args(rt) {
        for word in args {
            if word.as_str() != "help" && word.as_str() != "--" {
                words.push(word)?;
            }
        }
    }
    Ok(words)
}

/// Writes which commands have names similar to that among the words, or where all commands are.
fn put_similar<E: Sink>(alloc: Global, words: &[String], err: &mut E) -> Result<(), Fault> {
    if let Err(UsageFault::Usage(text)) = job_of(alloc, words) {
        if let Some(tip) = tip_in(text.as_str()) {
            return put_pieces(err, &[b"debctl: ", tip.as_bytes(), b"\n"]);
        }
    }
    put_all(err, COMMANDS)
}

/// Returns the tip about similar commands in an error of `clap`, if it has one.
fn tip_in(text: &str) -> Option<&str> {
    if !text.starts_with("error: unrecognized subcommand '") {
        return None;
    }
    let (_, after) = text.rsplit_once("\n  tip: ")?;
    let (tip, _) = after.split_once("\n")?;
    Some(tip)
}
