//! The job on files whose selected paragraphs are written, and that goes on after those that are
//! refused: `select --accepted`.

ghost use Rattle.std.specs.Prelude.{◌≡◌, ◌<◌, IfErr, IfOk, map, string_bytes};
ghost use Rattle.deb_base.specs.Devices.{read_failures_after, write_failures_after, Puts};
ghost use Rattle.deb_base.specs.declared.fault.Fault.TheVariants.{Memory};
ghost use Rattle.deb_select.specs.Selecting.{Request};
ghost use Rattle.debctl_commands.specs.JobDevices.{writer_of};
ghost use Rattle.debctl_commands.specs.OpenedFiles.{opener, InOrder, ReadsMore};
ghost use Rattle.debctl_commands.specs.SelectAcceptedJob.{accepted_status, nothing_read};
ghost use Rattle.debctl_commands.specs.SelectAcceptedJob.{read_so_far, with_both};
ghost use Rattle.debctl_commands.specs.SelectAcceptedJob.{AcceptsAll, AddsAccepted};
ghost use Rattle.debctl_commands.specs.SelectAcceptedJob.{EndsAccepted, IsTotalAfter};
ghost use Rattle.debctl_commands.specs.SelectAcceptedJob.{ReportsAccepted, SaysAccepted};
ghost use Rattle.debctl_commands.specs.SelectJob.{count_text, paths_or_input, IsSelector};
ghost use Rattle.debctl_commands.specs.Taking.{TakesFile};

use crate::file_fault::{FileFault, PlaceFault, Role, at_role, report_file_fault};
use crate::opens::Opens;
use crate::select_conditions::report_conditions;
use crate::select_job::{
    Selector, Tally, files_in, no_file, put_count, selector_of, tally_after, tally_status,
};
use deb_base::{Fault, Sink, Source};
use deb_select::Accepted;
use debctl_args::SelectOf;
use std::alloc::Global;

/// What was selected of the files so far, and whether some lines of them were refused.
#[derive(Clone, Copy)]
pub struct Total {
    pub selected: Tally,
    /// Whether a run of lines of one of the files was refused.
    pub refused: bool,
}

/// Opens the files of some paths, and writes to `out` the paragraphs of them that pass and are
/// selected, in the form asked, or how many they are. Returns the status.
///
/// The files are opened and read in order, each once, but none before all conditions are good and
/// none after a fault. Without a path, standard input is read, which is opened as `-`. For each
/// file, `err` has a line for each run of lines that is refused, and then one with the counts.
///
/// - 0: nothing was refused, and the paragraphs were written.
/// - 1: nothing was refused, and no paragraph is selected, or with `strict` one that is lacks a
///   field of the table. All was written as with status 0.
/// - 2: something was refused. The selected ones of the paragraphs that pass were written.
/// - 3: a text of `--where` is no condition; or out of memory, an opening, a read or a write
///   failed. `err` has the usage error, for which nothing was written to `out`, or the fault's
///   line; if a write to `err` failed, a prefix of it. A prefix of the paragraphs was written.
///
/// At most 4,295,032,831 bytes are read from each file that is opened: a file of the most bytes,
/// and one piece.
pub fn run_select_accepted<F: Opens, W: Sink, E: Sink>(
    alloc: Global,
    select: &SelectOf,
    files: &mut F,
    out: &mut W,
    err: &mut E,
) -> u8
    ensures done { result < 3 → SaysAccepted
        (opener F.opens F.text F.failures F.Reader.left F.Reader.failures) select.now files.old
        files.new (writer_of W.held W.failures out.old out.new)
        (writer_of E.held E.failures err.old err.new) result }

    // Where an opening or a write failed, the status is 3.
    ensures status_3_if_opening_failed { F.failures files.old < F.failures files.new → result ≡ 3 }
    ensures status_3_if_write_failed { W.failures out.old < W.failures out.new → result ≡ 3 }
    ensures status_3_if_err_failed { E.failures err.old < E.failures err.new → result ≡ 3 }

    // Whatever the status: the conditions aren't good, and that is reported; or the files were
    // opened and read so, there is an answer, and that is reported.
    ensures reports_answer { ReportsAccepted
        (opener F.opens F.text F.failures F.Reader.left F.Reader.failures) select.now files.old
        files.new (writer_of W.held W.failures out.old out.new)
        (writer_of E.held E.failures err.old err.new) result }
{
    report_accepted(alloc, select, files, out, err)
}

/// Writes the paragraphs, and reports the answer.
fn report_accepted<F: Opens, W: Sink, E: Sink>(
    alloc: Global,
    select: &SelectOf,
    files: &mut F,
    out: &mut W,
    err: &mut E,
) -> u8
    ensures { ReportsAccepted
        (opener F.opens F.text F.failures F.Reader.left F.Reader.failures) select.now files.old
        files.new (writer_of W.held W.failures out.old out.new)
        (writer_of E.held E.failures err.old err.new) result }
{
    match selector_of(alloc, select) {
        Ok(selector) => report_total(&selector, select, files, out, err),
        Err(fault) => report_conditions(fault, err),
    }
}

/// Writes the paragraphs of the files that pass and are selected, and reports the answer.
fn report_total<F: Opens, W: Sink, E: Sink>(
    selector: &Selector,
    select: &SelectOf,
    files: &mut F,
    out: &mut W,
    err: &mut E,
) -> u8
    ensures { (asked : Request) → IsSelector asked selector.now → EndsAccepted
        (opener F.opens F.text F.failures F.Reader.left F.Reader.failures) select.now asked
        files.old files.new (writer_of W.held W.failures out.old out.new)
        (writer_of E.held E.failures err.old err.new) result }
{
    match accept_all(selector, select, files, out, err) {
        Ok(total) => accepted_status(select.strict, total),
        Err(fault) => report_file_fault(fault, err),
    }
}

/// The status of files of which so much is selected.
fn accepted_status(strict: bool, total: Total) -> u8
    ensures { result ≡ accepted_status strict total }
{
    if total.refused {
        2
    } else {
        tally_status(strict, total.selected)
    }
}

/// Writes the paragraphs of the files that pass and are selected, or how many they are.
fn accept_all<F: Opens, W: Sink, E: Sink>(
    selector: &Selector,
    select: &SelectOf,
    files: &mut F,
    out: &mut W,
    err: &mut E,
) -> Result<Total, FileFault>
    ensures { (asked : Request) → IsSelector asked selector.now → AcceptsAll
        (opener F.opens F.text F.failures F.Reader.left F.Reader.failures) select.now asked
        files.old files.new (writer_of W.held W.failures out.old out.new)
        (writer_of E.held E.failures err.old err.new) result }
{
    match accept_paths(selector, &select.paths, files, out, err) {
        Ok(total) => at_role(Role::Unnamed, put_total(select.count, total, out)),
        Err(fault) => Err(fault.among(Role::Unnamed, files_in(&select.paths))),
    }
}

/// Writes how many paragraphs are selected, if that is asked.
fn put_total<W: Sink>(asked: bool, total: Total, out: &mut W) -> Result<Total, Fault>
    ensures ok { IfOk result (λ same. same ≡ total) }
    ensures written { Puts (W.held out.old) (W.held out.new) result
        (count_text asked total.selected.count) }
    ensures fault { IfErr result (λ fault. fault ≡ Fault.Write) }
    ensures counts_failure { W.failures out.new ≡ write_failures_after (W.failures out.old) result }
{
    match put_count(asked, total.selected, out) {
        Ok(_) => Ok(total),
        Err(fault) => Err(fault),
    }
}

/// Writes the paragraphs of the files of some paths that pass and are selected, or without a path
/// of standard input.
fn accept_paths<F: Opens, W: Sink, E: Sink>(
    selector: &Selector,
    paths: &[String],
    files: &mut F,
    out: &mut W,
    err: &mut E,
) -> Result<Total, PlaceFault>
    ensures { (asked : Request) → IsSelector asked selector.now → InOrder
        (ReadsMore (opener F.opens F.text F.failures F.Reader.left F.Reader.failures)
        (AddsAccepted asked (writer_of W.held W.failures out.old out.new)
        (writer_of E.held E.failures err.old err.new))) 1
        (paths_or_input (map string_bytes paths.now)) files.old
        (read_so_far nothing_read out.old err.old) (with_both out.new err.new result) files.new }
{
    if !paths.is_empty() {
        return accept_files(selector, paths, files, out, err);
    }
    match accept_file(selector, nothing_read(), b"-", files, out, err) {
        Ok(total) => Ok(total),
        Err(fault) => Err(PlaceFault { place: 1, fault }),
    }
}

/// What is selected of no file.
fn nothing_read() -> Total
    ensures { result ≡ nothing_read }
{
    Total {
        selected: no_file(),
        refused: false,
    }
}

/// Writes the paragraphs of the files of some paths that pass and are selected.
fn accept_files<F: Opens, W: Sink, E: Sink>(
    selector: &Selector,
    paths: &[String],
    files: &mut F,
    out: &mut W,
    err: &mut E,
) -> Result<Total, PlaceFault>
    ensures { (asked : Request) → IsSelector asked selector.now → InOrder
        (ReadsMore (opener F.opens F.text F.failures F.Reader.left F.Reader.failures)
        (AddsAccepted asked (writer_of W.held W.failures out.old out.new)
        (writer_of E.held E.failures err.old err.new))) 1 (map string_bytes paths.now) files.old
        (read_so_far nothing_read out.old err.old) (with_both out.new err.new result) files.new }
{
    let mut total = nothing_read();
    let mut place = 0;
    for path in paths {
        place += 1;
        match accept_file(selector, total, path.as_bytes(), files, out, err) {
            Ok(more) => total = more,
            Err(fault) => return Err(PlaceFault { place, fault }),
        }
    }
    Ok(total)
}

/// Writes the paragraphs of the file of a path that pass and are selected, after those of other
/// files.
fn accept_file<F: Opens, W: Sink, E: Sink>(
    selector: &Selector,
    total: Total,
    path: &[u8],
    files: &mut F,
    out: &mut W,
    err: &mut E,
) -> Result<Total, Fault>
    ensures { (asked : Request) → IsSelector asked selector.now → ReadsMore
        (opener F.opens F.text F.failures F.Reader.left F.Reader.failures)
        (AddsAccepted asked (writer_of W.held W.failures out.old out.new)
        (writer_of E.held E.failures err.old err.new)) path.now files.old
        (read_so_far total out.old err.old) (with_both out.new err.new result) files.new }
{
    match files.open(path) {
        Ok(mut reader) => accept_opened(selector, total, &mut reader, out, err),
        Err(_) => Err(Fault::Read),
    }
}

/// Writes the paragraphs of an opened file that pass and are selected, after those of other files.
fn accept_opened<R: Source, W: Sink, E: Sink>(
    selector: &Selector,
    total: Total,
    reader: &mut R,
    out: &mut W,
    err: &mut E,
) -> Result<Total, Fault>
    ensures adds { (asked : Request) → IsSelector asked selector.now → AddsAccepted asked
        (writer_of W.held W.failures out.old out.new)
        (writer_of E.held E.failures err.old err.new) (read_so_far total out.old err.old)
        (R.left reader.old) (with_both out.new err.new result) }
    ensures reads_at_most { TakesFile (R.left reader.old) (R.left reader.new) }
    ensures counts_read_failure { R.failures reader.new
        ≡ read_failures_after (R.failures reader.old) result }
{
    let begun = total.selected.begun;
    match selector
        .selection
        .write_accepted(&selector.form, begun, reader, out, err)
    {
        Ok(accepted) => total_after(total, accepted),
        Err(fault) => Err(fault),
    }
}

/// Returns what was selected of the files with one more.
///
/// # Errors
///
/// Out of memory, if there are 2^64 paragraphs.
fn total_after(total: Total, accepted: Accepted) -> Result<Total, Fault>
    ensures ok { IfOk result (IsTotalAfter total accepted) }
    ensures fault { IfErr result (λ fault. fault ≡ Memory) }
{
    match tally_after(total.selected, accepted.outcome) {
        Ok(selected) => Ok(Total {
            selected,
            refused: total.refused || accepted.summary.refused != 0,
        }),
        Err(fault) => Err(fault),
    }
}
