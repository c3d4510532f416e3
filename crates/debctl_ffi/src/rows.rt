//! The rows of a text that this library wrote, for programs in C.

ghost use Rattle.std.specs.Prelude.{◌≡◌, ◌∷◌, [], IfNone, IfSome};
ghost use Rattle.debctl_ffi.specs.Answers.{HasStatus};
ghost use Rattle.debctl_ffi.specs.Buffers.{buffer};
ghost use Rattle.debctl_ffi.specs.RowTables.{IsNoForm, ReadsRows, form_number};

use crate::answer::{Answer, no, no_kind, no_room, yes};
use deb_rows::{Form, Outcome, Row, read_rows};

/// Writes what the lines of a text say, which this library wrote, to the start of `rows`: for each
/// line its kind, and where its cells are in the text. `form` is the form of the text: 0 a report,
/// 1 the lines of `deb_unmet`, 2 those of `deb_diff`, 3 an explanation, 4 the lines of
/// `deb_healthy`, 5 those of `deb_installable`. Returns how many rows there are. Takes no memory.
/// Status 0: done. 1: some line of the text has none of these forms, or the last one has no
/// newline. 4: `rows` is too small; `count` is how many there are. 6: no such form.
///
/// Except for status 0, `rows` is unchanged.
#[unsafe(no_mangle)]
pub extern "C" fn deb_rows(form: u8, text: &[u8], rows: &mut [Row], count: &mut usize) -> Answer
    ensures answers { ReadsRows form text.now (buffer rows.old rows.new count.new) result }
    ensures status { HasStatus result.status (0 ∷ 1 ∷ 4 ∷ 6 ∷ []) }
{
    *count = 0;
    let Some(of) = form_of(form) else {
        return no_kind();
    };
    match read_rows(of, text, rows, count) {
        Outcome::Read => yes(0),
        Outcome::Other => no(),
        Outcome::NoRoom => no_room(),
    }
}

/// The form of text that has this number.
fn form_of(form: u8) -> Option<Form>
    ensures some { IfSome result (λ of. form ≡ form_number of) }
    ensures none { IfNone result (IsNoForm form) }
{
    match form {
        0 => Some(Form::Report),
        1 => Some(Form::UnmetLines),
        2 => Some(Form::DiffLines),
        3 => Some(Form::Explanation),
        4 => Some(Form::HealthLines),
        5 => Some(Form::InstallableLines),
        _ => None,
    }
}
