//! The job on files whose selected paragraphs are written: `select`.

ghost use Rattle.std.specs.Prelude.{◌≡◌, ◌<◌, ◌+◌, ◌⊎◌, length, map, string_bytes};
ghost use Rattle.std.specs.Prelude.{IfErr, IfOk};
ghost use Rattle.deb_base.specs.Devices.{read_failures_after, write_failures_after, Puts};
ghost use Rattle.deb_base.specs.declared.fault.Fault.TheVariants.{Memory};
ghost use Rattle.deb_select.specs.Forms.{form_shown};
ghost use Rattle.deb_select.specs.Selecting.{Request};
ghost use Rattle.debctl_commands.specs.JobDevices.{writer_of};
ghost use Rattle.debctl_commands.specs.OpenedFiles.{opener, InOrder, ReadsMore};
ghost use Rattle.debctl_commands.specs.Taking.{TakesFile};
ghost use Rattle.debctl_commands.specs.SelectConditions.{TellsBad};
ghost use Rattle.debctl_commands.specs.SelectJob.{count_text, form_asked, form_of_control};
ghost use Rattle.debctl_commands.specs.SelectJob.{no_file, paths_or_input, so_far};
ghost use Rattle.debctl_commands.specs.SelectJob.{tally_status, with_writers, IsTallyAfter};
ghost use Rattle.debctl_commands.specs.SelectJob.{AddsSelected, EndsAsked, HasAsked, IsSelector};
ghost use Rattle.debctl_commands.specs.SelectJob.{RefusesSelect, ReportsSelect, SaysSelect};
ghost use Rattle.debctl_commands.specs.SelectJob.{SelectsAll};

use crate::file_fault::{FileFault, PlaceFault, Role, at_role, report_file_fault};
use crate::opens::Opens;
use crate::select_conditions::{ConditionsFault, read_conditions, report_conditions};
use deb_base::{Fault, Sink, Source, put_pieces};
use deb_select::{Form, Outcome, Selection};
use debctl_args::{SelectForm, SelectOf};
use itoa::Buffer;
use std::alloc::{AllocError, Global};

/// Which paragraphs are selected of each file, and what is written of them.
#[derive(Drop)]
pub struct Selector {
    pub selection: Selection,
    pub form: Form,
}

/// What was selected of the files so far.
#[derive(Clone, Copy)]
pub struct Tally {
    /// How many paragraphs.
    pub count: u64,
    /// Whether a paragraph was written.
    pub begun: bool,
    /// Whether each has all the fields of the table.
    pub full: bool,
}

/// Opens the files of some paths, and writes to `out` the paragraphs of them that are selected, in
/// the form asked, or how many they are. Returns the status.
///
/// The files are opened and read in order, each once, but none before all conditions are good and
/// none after a fault. Without a path, standard input is read, which is opened as `-`.
///
/// - 0: the paragraphs were written, and nothing to `err`.
/// - 1: no paragraph is selected, or with `strict` one that is lacks a field of the table. All was
///   written as with status 0.
/// - 2: a file is refused. The selected ones of the paragraphs before the refusal were written, and
///   the refusal's line on `err`, after `index K: ` for the K-th of several files.
/// - 3: a text of `--where` is no condition; or out of memory, an opening, a read or a write
///   failed. `err` has the usage error, for which nothing was written to `out`, or the fault's
///   line; if a write to `err` failed, a prefix of it. A prefix of the paragraphs was written.
///
/// At most 4,295,032,831 bytes are read from each file that is opened: a file of the most bytes,
/// and one piece.
pub fn run_select<F: Opens, W: Sink, E: Sink>(
    alloc: Global,
    select: &SelectOf,
    files: &mut F,
    out: &mut W,
    err: &mut E,
) -> u8
    ensures done { result < 2 → SaysSelect
        (opener F.opens F.text F.failures F.Reader.left F.Reader.failures) select.now files.old
        files.new (writer_of W.held W.failures out.old out.new)
        (writer_of E.held E.failures err.old err.new) result }
    ensures refused { result ≡ 2 → RefusesSelect
        (opener F.opens F.text F.failures F.Reader.left F.Reader.failures) select.now files.old
        files.new (writer_of W.held W.failures out.old out.new)
        (writer_of E.held E.failures err.old err.new) }

    // Where an opening or a write failed, the status is 3.
    ensures status_3_if_opening_failed { F.failures files.old < F.failures files.new → result ≡ 3 }
    ensures status_3_if_write_failed { W.failures out.old < W.failures out.new → result ≡ 3 }
    ensures status_3_if_err_failed { E.failures err.old < E.failures err.new → result ≡ 3 }

    // Whatever the status: the conditions aren't good, and that is reported; or the files were
    // opened and read so, there is an answer, and that is reported.
    ensures reports_answer { ReportsSelect
        (opener F.opens F.text F.failures F.Reader.left F.Reader.failures) select.now files.old
        files.new (writer_of W.held W.failures out.old out.new)
        (writer_of E.held E.failures err.old err.new) result }
{
    report_select(alloc, select, files, out, err)
}

/// Writes the paragraphs, and reports the answer.
fn report_select<F: Opens, W: Sink, E: Sink>(
    alloc: Global,
    select: &SelectOf,
    files: &mut F,
    out: &mut W,
    err: &mut E,
) -> u8
    ensures { ReportsSelect
        (opener F.opens F.text F.failures F.Reader.left F.Reader.failures) select.now files.old
        files.new (writer_of W.held W.failures out.old out.new)
        (writer_of E.held E.failures err.old err.new) result }
{
    match selector_of(alloc, select) {
        Ok(selector) => report_files(&selector, select, files, out, err),
        Err(fault) => report_conditions(fault, err),
    }
}

/// Reads the conditions, and returns which paragraphs are selected and what is written of them.
pub(crate) fn selector_of(alloc: Global, select: &SelectOf) -> Result<Selector, ConditionsFault>
    ensures ok { IfOk result (HasAsked select.now) }
    ensures bad { IfErr result
        (TellsBad select.now.kind (map string_bytes select.now.conditions.items)) }
{
    match read_conditions(alloc, select.kind, select.picks, &select.conditions) {
        Ok(selection) => match form_of(alloc, select) {
            Ok(form) => Ok(Selector { selection, form }),
            Err(_) => Err(ConditionsFault::Memory),
        },
        Err(fault) => Err(fault),
    }
}

/// Returns what is written of each paragraph.
fn form_of(alloc: Global, select: &SelectOf) -> Result<Form, AllocError>
    ensures { IfOk result (λ form. form_shown form ≡ form_asked select.now) }
{
    if select.count {
        return Ok(Form::Nothing);
    }
    match select.form {
        SelectForm::Control => form_of_control(alloc, &select.fields),
        SelectForm::Table => Ok(Form::Table(names_of(alloc, &select.fields)?)),
        SelectForm::Jsonl => Ok(Form::Json),
    }
}

/// Returns what is written of each paragraph as control data: these fields, or all without a name.
fn form_of_control(alloc: Global, fields: &[String]) -> Result<Form, AllocError>
    ensures { IfOk result (λ form. form_shown form
        ≡ form_of_control (map string_bytes fields.now)) }
{
    if fields.is_empty() {
        Ok(Form::Paragraphs)
    } else {
        Ok(Form::Fields(names_of(alloc, fields)?))
    }
}

/// Returns the names of fields in bytes.
fn names_of(alloc: Global, fields: &[String]) -> Result<Vec<Vec<u8>>, AllocError>
    ensures { IfOk result (λ names. map (λ name. name.items) names.items
        ≡ map string_bytes fields.now) }
{
    let mut names = Vec::new(alloc);
    for field in fields {
        names.push(Vec::from_slice(alloc, field.as_bytes())?)?;
    }
    Ok(names)
}

/// Writes the paragraphs of the files that are selected, and reports the answer.
fn report_files<F: Opens, W: Sink, E: Sink>(
    selector: &Selector,
    select: &SelectOf,
    files: &mut F,
    out: &mut W,
    err: &mut E,
) -> u8
    ensures { (asked : Request) → IsSelector asked selector.now → EndsAsked
        (opener F.opens F.text F.failures F.Reader.left F.Reader.failures) select.now asked
        files.old files.new (writer_of W.held W.failures out.old out.new)
        (writer_of E.held E.failures err.old err.new) result }
{
    match select_all(selector, select, files, out, err) {
        Ok(tally) => tally_status(select.strict, tally),
        Err(fault) => report_file_fault(fault, err),
    }
}

/// The status of files of which so much is selected.
pub(crate) fn tally_status(strict: bool, tally: Tally) -> u8
    ensures { result ≡ tally_status strict tally }
{
    if tally.count == 0 || strict && !tally.full {
        1
    } else {
        0
    }
}

/// Writes the paragraphs of the files that are selected, or how many they are.
fn select_all<F: Opens, W: Sink, E: Sink>(
    selector: &Selector,
    select: &SelectOf,
    files: &mut F,
    out: &mut W,
    err: &mut E,
) -> Result<Tally, FileFault>
    ensures { (asked : Request) → IsSelector asked selector.now → SelectsAll
        (opener F.opens F.text F.failures F.Reader.left F.Reader.failures) select.now asked
        files.old files.new (writer_of W.held W.failures out.old out.new)
        (writer_of E.held E.failures err.old err.new) result }
{
    match select_paths(selector, &select.paths, files, out, err) {
        Ok(tally) => at_role(Role::Unnamed, put_count(select.count, tally, out)),
        Err(fault) => Err(fault.among(Role::Unnamed, files_in(&select.paths))),
    }
}

/// Returns how many files are read: standard input without a path.
pub(crate) fn files_in(paths: &[String]) -> usize
    ensures { result ≡ length (paths_or_input (map string_bytes paths.now)) }
{
    if paths.is_empty() { 1 } else { paths.len() }
}

/// Writes how many paragraphs are selected, if that is asked.
pub(crate) fn put_count<W: Sink>(asked: bool, tally: Tally, out: &mut W) -> Result<Tally, Fault>
    ensures ok { IfOk result (λ same. same ≡ tally) }
    ensures written { Puts (W.held out.old) (W.held out.new) result
        (count_text asked tally.count) }
    ensures fault { IfErr result (λ fault. fault ≡ Fault.Write) }
    ensures counts_failure { W.failures out.new ≡ write_failures_after (W.failures out.old) result }
{
    if asked {
        put_pieces(out, &[Buffer::new().format(tally.count).as_bytes(), b"\n"])?;
    }
    Ok(tally)
}

/// Writes the paragraphs of the files of some paths that are selected, or without a path of
/// standard input.
fn select_paths<F: Opens, W: Sink, E: Sink>(
    selector: &Selector,
    paths: &[String],
    files: &mut F,
    out: &mut W,
    err: &mut E,
) -> Result<Tally, PlaceFault>
    ensures { (asked : Request) → IsSelector asked selector.now → InOrder
        (ReadsMore (opener F.opens F.text F.failures F.Reader.left F.Reader.failures)
        (AddsSelected asked W.held W.failures out.new err.new)) 1
        (paths_or_input (map string_bytes paths.now)) files.old (so_far no_file out.old err.old)
        (with_writers out.new err.new result) files.new }
{
    if !paths.is_empty() {
        return select_files(selector, paths, files, out, err);
    }
    match select_file(selector, no_file(), b"-", files, out, err) {
        Ok(tally) => Ok(tally),
        Err(fault) => Err(PlaceFault { place: 1, fault }),
    }
}

/// Returns what was selected of no file.
pub(crate) fn no_file() -> Tally
    ensures { result ≡ no_file }
{
    Tally {
        count: 0,
        begun: false,
        full: true,
    }
}

/// Writes the paragraphs of the files of some paths that are selected.
fn select_files<F: Opens, W: Sink, E: Sink>(
    selector: &Selector,
    paths: &[String],
    files: &mut F,
    out: &mut W,
    err: &mut E,
) -> Result<Tally, PlaceFault>
    ensures { (asked : Request) → IsSelector asked selector.now → InOrder
        (ReadsMore (opener F.opens F.text F.failures F.Reader.left F.Reader.failures)
        (AddsSelected asked W.held W.failures out.new err.new)) 1 (map string_bytes paths.now)
        files.old (so_far no_file out.old err.old) (with_writers out.new err.new result)
        files.new }
{
    let mut tally = no_file();
    let mut place = 0;
    for path in paths {
        place += 1;
        match select_file(selector, tally, path.as_bytes(), files, out, err) {
            Ok(more) => tally = more,
            Err(fault) => return Err(PlaceFault { place, fault }),
        }
    }
    Ok(tally)
}

/// Writes the paragraphs of the file of a path that are selected, after those of other files.
fn select_file<F: Opens, W: Sink, E: Sink>(
    selector: &Selector,
    tally: Tally,
    path: &[u8],
    files: &mut F,
    out: &mut W,
    err: &mut E,
) -> Result<Tally, Fault>
    ensures { (asked : Request) → IsSelector asked selector.now → ReadsMore
        (opener F.opens F.text F.failures F.Reader.left F.Reader.failures)
        (AddsSelected asked W.held W.failures out.new err.new) path.now files.old
        (so_far tally out.old err.old) (with_writers out.new err.new result) files.new }
{
    match files.open(path) {
        Ok(mut reader) => select_opened(selector, tally, &mut reader, out, err),
        Err(_) => Err(Fault::Read),
    }
}

/// Writes the paragraphs of an opened file that are selected, after those of other files.
fn select_opened<R: Source, W: Sink, E: Sink>(
    selector: &Selector,
    tally: Tally,
    reader: &mut R,
    out: &mut W,
    err: &mut E,
) -> Result<Tally, Fault>
    ensures adds { (asked : Request) → IsSelector asked selector.now → AddsSelected asked W.held
        W.failures out.new err.new (so_far tally out.old err.old) (R.left reader.old)
        (with_writers out.new err.new result) }
    ensures reads_at_most { TakesFile (R.left reader.old) (R.left reader.new) }
    ensures counts_read_failure { R.failures reader.new
        ≡ read_failures_after (R.failures reader.old) result }
{
    match selector
        .selection
        .write(&selector.form, tally.begun, reader, out)
    {
        Ok(outcome) => tally_after(tally, outcome),
        Err(fault) => Err(fault),
    }
}

/// Returns what was selected of the files with one more.
///
/// # Errors
///
/// Out of memory, if there are 2^64 paragraphs.
pub(crate) fn tally_after(tally: Tally, outcome: Outcome) -> Result<Tally, Fault>
    ensures ok { IfOk result (IsTallyAfter tally outcome) }
    ensures fault { IfErr result (λ fault. fault ≡ Memory) }
{
    match tally.count.checked_add(outcome.count) {
        Some(count) => Ok(Tally {
            count,
            begun: outcome.begun,
            full: tally.full && outcome.full,
        }),
        None => Err(Fault::Memory),
    }
}
