//! The files of a call: which are opened, in which order, and which of them the job reads first.

ghost use Rattle.std.specs.Prelude.{◌≡◌, ◌<◌, IfOk, Result, option_map, string_bytes};
ghost use Rattle.debctl_commands.specs.Opening.{first_path, left_of, second_path, text_at};
ghost use Rattle.debctl_commands.specs.Opening.{EndsCall, OpensBoth, OpensPath};
ghost use Rattle.debctl_commands.specs.JobDevices.{writer_of};
ghost use Rattle.debctl_commands.specs.Running.{Done, IsRefused, SaysNo};
ghost use Rattle.debctl_commands.specs.declared.opening.Both.{Both};
ghost use Rattle.debctl_commands.specs.declared.unopened.Unopened.{Unopened};

use crate::command::run;
use crate::file_or_nothing::FileOrNothing;
use crate::opens::Opens;
use crate::reporting::report_fault;
use crate::unopened::Unopened;
use deb_base::{Fault, Sink};
use debctl_args::{Call, Reads};
use std::alloc::Global;

/// The two files of a job, where it has them.
#[derive(Drop)]
pub struct Both<R> {
    pub first: FileOrNothing<R>,
    pub second: FileOrNothing<R>,
}

/// Opens the files of a call, the first one first and each once, and does its job over them as
/// [`run`](crate::run) does: the first one is its first, and the second one its second. Returns the
/// status.
///
/// A job on one file without a path has standard input as its first file, which is opened as `-`.
/// Where a file can't be opened, no other is opened after it: `fault: read` is written on `err`, or
/// a prefix of it where a write on `err` failed, and the status is 3.
/// At most 4,295,032,831 bytes are read from each file: a file of the most bytes, and one piece.
pub fn run_call<F: Opens, W: Sink, E: Sink>(
    alloc: Global,
    call: &Call,
    files: &mut F,
    out: &mut W,
    err: &mut E,
) -> u8
    // The texts of the files of the paths.
    ensures done { result ≡ 0 → (err.new ≡ err.old)
        × Done call.now.job (text_at (F.text files.old) (first_path call.now))
        (text_at (F.text files.old) (second_path call.now))
        (writer_of W.held W.failures out.old out.new) }
    ensures no { result ≡ 1 → (err.new ≡ err.old)
        × SaysNo call.now.job (text_at (F.text files.old) (first_path call.now))
        (text_at (F.text files.old) (second_path call.now))
        (writer_of W.held W.failures out.old out.new) }
    ensures refused { result ≡ 2
        → IsRefused call.now.job (text_at (F.text files.old) (first_path call.now))
        (text_at (F.text files.old) (second_path call.now))
        (writer_of W.held W.failures out.old out.new) (E.held err.old) (E.held err.new) }

    // Where a write failed, the status is 3.
    ensures status_3_if_write_failed { W.failures out.old < W.failures out.new → result ≡ 3 }
    ensures status_3_if_err_failed { E.failures err.old < E.failures err.new → result ≡ 3 }

    // Whatever the status: the files were opened so, so much was taken of each, and the job ended
    // so over their readers.
    ensures reports_answer { (opened : Result (Both F.Reader) Unopened)
        × OpensBoth F.opens (first_path call.now) (second_path call.now) files.old opened files.new
        × EndsCall F.Reader.left F.Reader.failures call.now.job opened
        (writer_of W.held W.failures out.old out.new)
        (writer_of E.held E.failures err.old err.new) result }
{
    match open_both(call, files) {
        Ok(mut both) => run(
            alloc,
            &call.job,
            &mut both.first,
            &mut both.second,
            out,
            err,
        ),
        Err(_) => report_fault(&Fault::Read, err),
    }
}

/// Opens the files of a call.
fn open_both<F: Opens>(call: &Call, files: &mut F) -> Result<Both<F::Reader>, Unopened>
    ensures opened { OpensBoth F.opens (first_path call.now) (second_path call.now) files.old result
        files.new }
    ensures texts { IfOk result (λ both.
        (left_of F.Reader.left both.first ≡ text_at (F.text files.old) (first_path call.now))
        × (left_of F.Reader.left both.second ≡ text_at (F.text files.old) (second_path call.now))) }
{
    let first = open_path(first_path(call), files)?;
    let second = open_path(path_of(&call.second), files)?;
    Ok(Both { first, second })
}

/// Opens the file of a path, where there is one.
fn open_path<F: Opens>(
    path: Option<&[u8]>,
    files: &mut F,
) -> Result<FileOrNothing<F::Reader>, Unopened>
    ensures opened { OpensPath F.opens (option_map (λ path. path.now) path.entry) files.old
        result files.new }
    ensures text { IfOk result (λ file. left_of F.Reader.left file
        ≡ text_at (F.text files.old) (option_map (λ path. path.now) path.entry)) }
    ensures unchanged { F.text files.new ≡ F.text files.old }
{
    match path {
        Some(path) => match files.open(path) {
            Ok(reader) => Ok(FileOrNothing::File(reader)),
            Err(why) => Err(why),
        },
        None => Ok(FileOrNothing::Nothing),
    }
}

/// Returns the path of the first file that a call opens, where it opens one.
fn first_path(call: &Call) -> Option<&[u8]>
    ensures { option_map (λ path. path.now) result ≡ first_path call.now }
{
    let path = path_of(&call.first);
    match call.job.reads() {
        Reads::OneFile => Some(path.unwrap_or(b"-")),
        Reads::Paths => path,
        Reads::Nothing => None,
    }
}

/// Returns a path in bytes, where there is one.
fn path_of(path: &Option<String>) -> Option<&[u8]>
    ensures { option_map (λ path. path.now) result ≡ option_map string_bytes path.now }
{
    match path {
        Some(path) => Some(path.as_bytes()),
        None => None,
    }
}
