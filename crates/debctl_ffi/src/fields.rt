//! The fields of a file, for programs in C.

ghost use Rattle.std.specs.Prelude.{◌∷◌, [], IfOk, IsFalse, IsTrue, List, length};
ghost use Rattle.debctl_ffi.specs.Answers.{HasStatus};
ghost use Rattle.debctl_ffi.specs.Buffers.{buffer};
ghost use Rattle.debctl_ffi.specs.Fields.{GivesTables, IsAnswer, LacksTables, Numbered, ShowsFields, room};
ghost use Rattle.debctl_ffi.specs.Tables.{HasTables, ShowFields};

use crate::answer::{Answer, no_kind, no_memory, no_room, refused, yes};
use crate::field::{FieldSpan, Tables};
use crate::kind::kind_of;
use crate::read_fields::read_text_fields;
use deb_base::Fault;
use deb_field::Doc;
use std::alloc::{AllocError, Global};

/// Writes where the fields of a file are, in file order: to the start of `names` the names, each
/// with a byte 0 after it, to the start of `values` the values likewise, and to the start of
/// `spans` for each field its paragraph, its line, and the offsets and lengths of its name and its
/// value (Debian Policy 5.1). Returns how many there are of each. Status 0: the file is accepted,
/// with the number of its paragraphs. 2: it is refused, with its first refusal; the fields are
/// those of the paragraphs before the one that fails. 4: one of the three is too small; the
/// numbers are what they need. 5: out of memory. 6: no such kind.
///
/// Except for status 0 and 2, the three are unchanged.
#[unsafe(no_mangle)]
pub extern "C" fn deb_fields(
    alloc: Global,
    kind: u8,
    text: &[u8],
    spans: &mut [FieldSpan],
    span_count: &mut usize,
    names: &mut [u8],
    names_length: &mut usize,
    values: &mut [u8],
    values_length: &mut usize,
) -> Answer
    ensures answers { ShowsFields kind text.now
        (room (buffer spans.old spans.new span_count.new)
        (buffer names.old names.new names_length.new)
        (buffer values.old values.new values_length.new)) result }
    ensures status { HasStatus result.status (0 ∷ 2 ∷ 4 ∷ 5 ∷ 6 ∷ []) }
{
    *span_count = 0;
    *names_length = 0;
    *values_length = 0;
    let Some(doc) = kind_of(kind) else {
        return no_kind();
    };
    match text_fields(alloc, doc, text) {
        Ok((answer, tables)) => {
            *span_count = tables.spans.len();
            *names_length = tables.names.len();
            *values_length = tables.values.len();
            if give_tables(&tables, spans, names, values) {
                answer
            } else {
                no_room()
            }
        }
        Err(_) => no_memory(),
    }
}

/// Copies tables to the start of buffers, if each has room, and returns whether all have.
pub(crate) fn give_tables(
    tables: &Tables,
    spans: &mut [FieldSpan],
    names: &mut [u8],
    values: &mut [u8],
) -> bool
    ensures given { (shown : List Numbered) → HasTables tables.now shown → IsTrue result
        → GivesTables shown
        (room (buffer spans.old spans.new (length tables.now.spans.items))
        (buffer names.old names.new (length tables.now.names.items))
        (buffer values.old values.new (length tables.now.values.items))) }
    ensures no_room { (shown : List Numbered) → HasTables tables.now shown → IsFalse result
        → LacksTables shown
        (room (buffer spans.old spans.new (length tables.now.spans.items))
        (buffer names.old names.new (length tables.now.names.items))
        (buffer values.old values.new (length tables.now.values.items))) }
{
    if tables.spans.len() > spans.len()
        || tables.names.len() > names.len()
        || tables.values.len() > values.len()
    {
        return false;
    }
    spans[..tables.spans.len()].copy_from_slice(&tables.spans);
    names[..tables.names.len()].copy_from_slice(&tables.names);
    values[..tables.values.len()].copy_from_slice(&tables.values);
    true
}

/// The answer for a file in memory, and its fields: all, or those before the first paragraph that
/// fails.
fn text_fields(alloc: Global, doc: Doc, text: &[u8]) -> Result<(Answer, Tables), AllocError>
    ensures answers { IfOk result (λ found. IsAnswer doc text.now found.0) }
    ensures shown { IfOk result (λ found. ShowFields doc text.now found.1) }
{
    let mut tables = Tables::new(alloc);
    match read_text_fields(alloc, doc, text, &mut tables) {
        Ok(count) => Ok((yes(count), tables)),
        Err(Fault::Refused(refusal)) => Ok((refused(&refusal), tables)),
        Err(_) => Err(AllocError),
    }
}
