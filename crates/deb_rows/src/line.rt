//! Reads the row of a line.

ghost use Rattle.std.specs.Prelude.{◌≡◌, ◌≤◌, length};
ghost use Rattle.std.specs.Option.{option_map};
ghost use Rattle.deb_rows.specs.Kinds.{pieces_of};
ghost use Rattle.deb_rows.specs.Reads.{found, read_cells, read_kind, read_row};
ghost use Rattle.deb_rows.specs.Rows.{no_cells};

use crate::cell::read_cell;
use crate::form::{Form, kinds_of};
use crate::kind::{RowKind, front_of, pieces_of};
use crate::row::{CELLS, NO_SPAN, Row, Span};

/// A row, and the offset at which the next line begins.
#[derive(Clone, Copy)]
pub(crate) struct Found {
    pub(crate) row: Row,
    pub(crate) next: usize,
}

/// The row whose line begins at an offset of a text of a form.
pub(crate) fn read_row(form: Form, text: &[u8], start: usize) -> Option<Found>
    requires within { start ≤ length text.now }
    ensures { result ≡ read_row form text.now start }
{
    let kinds = kinds_of(form);
    for i in 0..kinds.len() {
        if let Some(found) = read_kind(kinds[i], text, start) {
            return Some(found);
        }
    }
    None
}

/// The row of this kind whose line begins at an offset.
fn read_kind(kind: RowKind, text: &[u8], start: usize) -> Option<Found>
    requires within { start ≤ length text.now }
    ensures { result ≡ read_kind kind text.now start }
{
    let front = front_of(kind);
    if !text[start..].starts_with(front) {
        return None;
    }
    read_cells(kind, text, start + front.len())
}

/// The row of this kind whose cells begin at an offset.
fn read_cells(kind: RowKind, text: &[u8], start: usize) -> Option<Found>
    requires within { start ≤ length text.now }
    ensures { result ≡ option_map (found kind)
        (read_cells (pieces_of kind) text.now start 0 no_cells) }
{
    let pieces = pieces_of(kind);
    let mut cells = [NO_SPAN; CELLS];
    let mut at = start;
    for i in 0..pieces.len() {
        let (class, after) = pieces[i];
        let Some(length) = read_cell(class, after, &text[at..]) else {
            return None;
        };
        cells[i] = Span { start: at, length };
        at += length + after.len();
    }
    Some(Found {
        row: Row {
            kind: kind as u8,
            cell_count: pieces.len() as u8,
            cells,
        },
        next: at,
    })
}
