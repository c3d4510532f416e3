//! Reads the rows of a text.

ghost use Rattle.std.specs.Prelude.{◌≡◌, List, slice_set, IfNone, IfSome};
ghost use Rattle.deb_rows.specs.Calls.{IsOther, LacksRoom, Reads, Scans};
ghost use Rattle.deb_rows.specs.Rows.{HasRows, RowText};

use crate::form::Form;
use crate::line::read_row;
use crate::row::Row;

/// What became of a text.
#[derive(Clone, Copy, Debug, PartialEq, Eq)]
pub enum Outcome {
    /// Its rows are in the table.
    Read,
    /// It isn't a text of this form.
    Other,
    /// The table is too short for its rows.
    NoRoom,
}

/// Writes the rows of a text of a form to the start of `rows`, and sets `count` to their number; to
/// 0 if the text is of another form. Takes no memory.
///
/// Except for `Outcome::Read`, `rows` is unchanged.
pub fn read_rows(form: Form, text: &[u8], rows: &mut [Row], count: &mut usize) -> Outcome
    ensures read { result ≡ Outcome.Read → Reads form text.now rows.old rows.new count.new }
    ensures other { result ≡ Outcome.Other → IsOther form text.now rows.old rows.new count.new }
    ensures no_room { result ≡ Outcome.NoRoom
        → LacksRoom form text.now rows.old rows.new count.new }
{
    match scan(form, text, &mut []) {
        None => {
            *count = 0;
            Outcome::Other
        }
        Some(found) => {
            *count = found;
            if found > rows.len() {
                return Outcome::NoRoom;
            }
            let _ = scan(form, text, rows);
            Outcome::Read
        }
    }
}

/// How many rows a text has, if it is of a form. The first rows are written to `rows`, as many as
/// have room.
fn scan(form: Form, text: &[u8], rows: &mut [Row]) -> Option<usize>
    ensures some { IfSome result (Scans form text.now rows.old rows.new) }
    ensures none { IfNone result ((rows : List RowText) → HasRows form text.now rows → ⊥) }
{
    let mut at = 0;
    let mut count = 0;
    while at < text.len() {
        let Some(found) = read_row(form, text, at) else {
            return None;
        };
        put(rows, count, found.row);
        at = found.next;
        count += 1;
    }
    Some(count)
}

/// Writes a row to its place, if there is one.
fn put(rows: &mut [Row], place: usize, row: Row)
    ensures { rows.new ≡ slice_set rows.old place row }
{
    if place < rows.len() {
        rows[place] = row;
    }
}
