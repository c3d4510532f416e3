//! The task of `select`.

ghost use Rattle.std.specs.List.{list_any};
ghost use Rattle.std.specs.Prelude.{◌≡◌, IfOk, codes};
ghost use Rattle.clap.specs.Words.{all_of, first_of, found_of, rows_of};
ghost use Rattle.debctl_args.specs.Asked.{is_standard_input_twice, names_output, select_asked};
ghost use Rattle.debctl_args.specs.Asked.{select_in, select_in_form, select_of_files};
ghost use Rattle.debctl_args.specs.AskedWords.{comma_pieces, flag_asked, form_asked, is_empty};
ghost use Rattle.debctl_args.specs.AskedWords.{is_jsonl, is_table, on_refusal_asked, picks_asked};
ghost use Rattle.debctl_args.specs.AskedWords.{pieces_asked, texts_asked};
ghost use Rattle.debctl_args.specs.Fitting.{Answers};
ghost use Rattle.debctl_args.specs.Requests.{select_of};

use crate::arguments::{INPUT_TWICE, UsageFault, usage};
use crate::found_arguments::{
    all_given, flag_in, given, is_standard_input_twice, kind_in, pieces_in, texts_in,
};
use crate::jobs::{OnRefusal, Picks, SelectForm, SelectOf, Task};
use clap::ArgMatches;
use deb_base::Doc;
use std::alloc::{AllocError, Global};

/// The text for a number of paragraphs with what would be written of them.
const COUNT_ALONE: &str = "usage: select takes --count without -f and --format";

/// The text for another word for a format.
const OTHER_FORMAT: &str = "usage: select takes --format control, table or jsonl";

/// The text for a table without fields, which are its columns.
const TABLE_OF_FIELDS: &str = "usage: select takes --format table only with -f";

/// The text for fields of an object, which has all that its paragraph has.
const FIELDS_OF_JSONL: &str = "usage: select takes no -f with --format jsonl";

/// The text for a format in which a field that isn't there has no place.
const STRICT_OF_TABLE: &str = "usage: select takes --strict only with --format table";

/// The text for an empty name of a field.
const NO_FIELD_NAME: &str = "usage: -f takes names of fields";

pub(crate) fn select_task(alloc: Global, found: &ArgMatches<'_>) -> Result<Task, UsageFault>
    ensures { Answers (select_asked (rows_of (found_of found.now))) result }
{
    let kind = kind_in(alloc, found)?;
    if flag_in(found, "count") && names_output(found) {
        return Err(usage(alloc, COUNT_ALONE));
    }
    match form_in(found) {
        Some(form) => select_in_form(alloc, found, kind, form),
        None => Err(usage(alloc, OTHER_FORMAT)),
    }
}

/// Whether `-f` or `--format` is given.
fn names_output(found: &ArgMatches<'_>) -> bool
    ensures { result ≡ names_output (rows_of (found_of found.now)) }
{
    given(found, "fields").is_some() || given(found, "format").is_some()
}

/// `select` in this form: a table is of fields, an object of JSON of all fields, and nothing but a
/// table is strict.
fn select_in_form(
    alloc: Global,
    found: &ArgMatches<'_>,
    kind: Doc,
    form: SelectForm,
) -> Result<Task, UsageFault>
    ensures { Answers (select_in_form (rows_of (found_of found.now)) kind form) result }
{
    if is_table(form) && given(found, "fields").is_none() {
        return Err(usage(alloc, TABLE_OF_FIELDS));
    }
    if is_jsonl(form) && given(found, "fields").is_some() {
        return Err(usage(alloc, FIELDS_OF_JSONL));
    }
    if flag_in(found, "strict") && !is_table(form) {
        return Err(usage(alloc, STRICT_OF_TABLE));
    }
    select_of_files(alloc, found, kind, form)
}

/// `select` of files at most one of which is standard input, and of fields that have names.
fn select_of_files(
    alloc: Global,
    found: &ArgMatches<'_>,
    kind: Doc,
    form: SelectForm,
) -> Result<Task, UsageFault>
    ensures { Answers (select_of_files (rows_of (found_of found.now)) kind form) result }
{
    if has_empty_field(found) {
        return Err(usage(alloc, NO_FIELD_NAME));
    }
    if reads_input_twice(found) {
        return Err(usage(alloc, INPUT_TWICE));
    }
    Ok(Task::Select(select_in(alloc, found, kind, form)?))
}

/// What `select` is asked, of files of this kind and in this form.
fn select_in(
    alloc: Global,
    found: &ArgMatches<'_>,
    kind: Doc,
    form: SelectForm,
) -> Result<SelectOf, AllocError>
    ensures { IfOk result
        (λ select. select_of select ≡ select_in (rows_of (found_of found.now)) kind form) }
{
    let conditions = texts_in(alloc, found, "where")?;
    let fields = pieces_in(alloc, found, "fields")?;
    let paths = texts_in(alloc, found, "path")?;
    Ok(SelectOf {
        kind,
        conditions,
        picks: picks_in(found),
        on_refusal: on_refusal_in(found),
        fields,
        form,
        strict: flag_in(found, "strict"),
        count: flag_in(found, "count"),
        paths,
    })
}

/// The form that `--format` names, if its word is known: control data without it.
fn form_in(found: &ArgMatches<'_>) -> Option<SelectForm>
    ensures { result ≡ form_asked (first_of (codes "format") (rows_of (found_of found.now))) }
{
    match given(found, "format") {
        None | Some("control") => Some(SelectForm::Control),
        Some("table") => Some(SelectForm::Table),
        Some("jsonl") => Some(SelectForm::Jsonl),
        Some(_) => None,
    }
}

fn is_table(form: SelectForm) -> bool
    ensures { result ≡ is_table form }
{
    match form {
        SelectForm::Table => true,
        SelectForm::Control | SelectForm::Jsonl => false,
    }
}

fn is_jsonl(form: SelectForm) -> bool
    ensures { result ≡ is_jsonl form }
{
    match form {
        SelectForm::Jsonl => true,
        SelectForm::Control | SelectForm::Table => false,
    }
}

/// Which paragraphs are picked: those that don't match if `--not` is given.
fn picks_in(found: &ArgMatches<'_>) -> Picks
    ensures { result
        ≡ picks_asked (flag_asked (first_of (codes "not") (rows_of (found_of found.now)))) }
{
    if flag_in(found, "not") {
        Picks::Others
    } else {
        Picks::Matching
    }
}

/// What is done after a paragraph that is refused: `select` continues if `--accepted` is given.
fn on_refusal_in(found: &ArgMatches<'_>) -> OnRefusal
    ensures { result ≡ on_refusal_asked
        (flag_asked (first_of (codes "accepted") (rows_of (found_of found.now)))) }
{
    if flag_in(found, "accepted") {
        OnRefusal::Continue
    } else {
        OnRefusal::Stop
    }
}

/// Whether one of the names of fields is empty.
fn has_empty_field(found: &ArgMatches<'_>) -> bool
    ensures { result ≡ list_any is_empty
        (pieces_asked (first_of (codes "fields") (rows_of (found_of found.now)))) }
{
    match given(found, "fields") {
        Some(names) => has_empty_piece(names.as_bytes()),
        None => false,
    }
}

/// Whether one of the texts between the commas of a text is empty.
fn has_empty_piece(text: &[u8]) -> bool
    ensures { result ≡ list_any is_empty (comma_pieces text.now) }
{
    text.split(|byte| *byte == b',')
        .any(|piece| is_empty(piece))
}

fn is_empty(piece: &[u8]) -> bool
    ensures { result ≡ is_empty piece.now }
{
    piece.len() == 0
}

/// Whether two of the paths or more are standard input.
fn reads_input_twice(found: &ArgMatches<'_>) -> bool
    ensures { result ≡ is_standard_input_twice
        (texts_asked (all_of (codes "path") (rows_of (found_of found.now)))) }
{
    match all_given(found, "path") {
        Some(paths) => is_standard_input_twice(paths),
        None => false,
    }
}
