//! A reader that is fed a file in pieces, for programs in C.

ghost use Rattle.std.specs.Prelude.{◌≡◌, [], ◌∷◌, List};
ghost use Rattle.std.specs.Borrow.{full_share};
ghost use Rattle.std.specs.Ptr.{lies_at, room_at};
ghost use base.Fml.{flft};
ghost use denote.Param.{layout};
ghost use denote.Struct.Lending.{lent_at};
ghost use prog.Memory.{capped, size};
ghost use types.Logic.{sem};
ghost use Rattle.debctl_ffi.specs.Answers.{HasStatus, plain};
ghost use Rattle.debctl_ffi.specs.Feeds.{FeedsOn, Starts};
ghost use Rattle.debctl_ffi.specs.Buffers.{buffer};
ghost use Rattle.debctl_ffi.specs.Fields.{Numbered, RepliesTables, room};
ghost use Rattle.debctl_ffi.specs.Loans.{Loan};
ghost use Rattle.debctl_ffi.specs.Tables.{HasTables};
ghost use Rattle.debctl_ffi.specs.Unmet.{is_set};
ghost use Rattle.debctl_ffi.specs.contracts.reader.Reader.{the_row};
ghost use Rattle.debctl_ffi.specs.declared.reader.Reader.{Reader as ReaderData};

use crate::answer::Answer;
use crate::field::FieldSpan;
use crate::reader::{Reader, discard};
use std::alloc::Global;

/// Returns how many bytes the memory of a reader has.
#[unsafe(no_mangle)]
pub extern "C" fn deb_reader_size() -> usize
    ensures size { result ≡ capped (size (layout the_row)) }
{
    size_of::<Reader>()
}

/// Starts a reader of a file of a kind in memory of the caller, of [`deb_reader_size`] bytes, which
/// is fed from then on and is freed by [`deb_reader_free`]. Status 0; 6: no such kind.
#[unsafe(no_mangle)]
pub unsafe extern "C" fn deb_reader_start(
    reader: *mut u8,
    alloc: Global,
    kind: u8,
    answer: &mut Answer,
)
    requires* room { sem 𝓛 (room_at the_row reader) }
    ensures* starts { ∃ₛ (λ (started : ReaderData).
        sem 𝓛 (lies_at the_row full_share reader started)
        ∗ ⌜ Starts kind answer.new started ⌝) }
{
    let started = Reader::start(alloc, kind, answer);
    (reader as *mut Reader).write(started)
}

/// Takes the next piece of the file, and reads each paragraph that ends in it; the file ends with
/// the piece if `is_last` isn't 0. Status 0: with the number of paragraphs so far. 2: the file is
/// refused, with its first refusal. 5: out of memory. 6: it was started for no kind.
///
/// After an error, and after the last piece, nothing is taken, and the answer is the same again.
#[unsafe(no_mangle)]
pub unsafe extern "C" fn deb_reader_feed(
    reader: *mut u8,
    text: &[u8],
    is_last: u8,
    answer: &mut Answer,
)
    ghost fed: { ReaderData }
    requires* started { sem 𝓛 (lies_at the_row full_share reader fed) }
    ensures* feeds { ∃ₛ (λ (new : ReaderData).
        sem 𝓛 (lies_at the_row full_share reader new)
        ∗ ⌜ FeedsOn fed text.now (is_set is_last) answer.new new ⌝) }
{
    let new = Reader::feed((reader as *mut Reader).read(), text, is_last, answer);
    (reader as *mut Reader).write(new)
}

/// Writes the tables of [`crate::fields::deb_fields`] for the paragraphs that the last
/// [`deb_reader_feed`] read. Status 0; 4: one of the three is too small; the numbers are what they
/// need, and the three are unchanged.
#[unsafe(no_mangle)]
pub unsafe extern "C" fn deb_reader_fields(
    reader: *const u8,
    spans: &mut [FieldSpan],
    span_count: &mut usize,
    names: &mut [u8],
    names_length: &mut usize,
    values: &mut [u8],
    values_length: &mut usize,
) -> Answer
    ghost loan: { Loan ReaderData }
    requires* lent { sem 𝓛 (flft loan.lifetime loan.share)
        ∗ sem 𝓛 (lent_at the_row reader loan.value loan.lifetime) }
    ensures* share { sem 𝓛 (flft loan.lifetime loan.share) }
    ensures tables { (shown : List Numbered) → HasTables loan.value.tables shown
        → RepliesTables (plain 0) shown
        (room (buffer spans.old spans.new span_count.new)
        (buffer names.old names.new names_length.new)
        (buffer values.old values.new values_length.new)) result }
    ensures status { HasStatus result.status (0 ∷ 4 ∷ []) }
{
    let fed = &*(reader as *const Reader);
    Reader::fields(
        fed,
        spans,
        span_count,
        names,
        names_length,
        values,
        values_length,
    )
}

/// Frees a reader. The memory is the caller's again.
#[unsafe(no_mangle)]
pub unsafe extern "C" fn deb_reader_free(reader: *mut u8)
    ghost fed: { ReaderData }
    requires* started { sem 𝓛 (lies_at the_row full_share reader fed) }
    ensures* room { sem 𝓛 (room_at the_row reader) }
{
    discard((reader as *mut Reader).read())
}
