//! What a loaded index keeps of a package, for programs in C.

ghost use Rattle.std.specs.Prelude.{◌≡◌, [], ◌∷◌, IfOk};
ghost use base.Fml.{flft};
ghost use denote.Struct.Lending.{lent_at};
ghost use types.Logic.{sem};
ghost use Rattle.deb_index.specs.Kept.{listed_of};
ghost use Rattle.deb_index.specs.KeptTexts.{kept_text};
ghost use Rattle.debctl_ffi.specs.Answers.{HasStatus};
ghost use Rattle.debctl_ffi.specs.Buffers.{buffer};
ghost use Rattle.debctl_ffi.specs.Details.{AsksDetails, at_line};
ghost use Rattle.debctl_ffi.specs.Loads.{HoldsNone};
ghost use Rattle.debctl_ffi.specs.Loans.{Loan};
ghost use Rattle.debctl_ffi.specs.contracts.loaded.Loaded.{the_row};
ghost use Rattle.debctl_ffi.specs.declared.loaded.Loaded.{Loaded as LoadedData};

use crate::answer::{Answer, no, no_index, no_memory, yes};
use crate::buffer::reply;
use crate::loaded::Loaded;
use deb_index::Package;
use std::alloc::{AllocError, Global};

/// Writes what a loaded index keeps of the package with a number, counted from 1, as a paragraph in
/// canonical text; the line of the answer is that at which its paragraph starts in the file. Status
/// 0; 1: there is no such package; 4: `out` is too small; 5: out of memory; 7: nothing is loaded.
#[unsafe(no_mangle)]
pub unsafe extern "C" fn deb_index_details(
    index: *const u8,
    number: u64,
    out: &mut [u8],
    len: &mut usize,
) -> Answer
    ghost loan: { Loan LoadedData }
    requires* lent { sem 𝓛 (flft loan.lifetime loan.share)
        ∗ sem 𝓛 (lent_at the_row index loan.value loan.lifetime) }
    ensures* share { sem 𝓛 (flft loan.lifetime loan.share) }
    ensures answers { AsksDetails number loan.value
        (buffer out.old out.new len.new) result }
    ensures none_held { HoldsNone loan.value → result.status ≡ 7 }
    ensures status { HasStatus result.status (0 ∷ 1 ∷ 4 ∷ 5 ∷ 7 ∷ []) }
{
    let loaded = &*(index as *const Loaded);
    details_at(loaded, number, out, len)
}

/// The answer of [`deb_index_details`].
fn details_at(loaded: &Loaded, number: u64, out: &mut [u8], len: &mut usize) -> Answer
    ensures answers { AsksDetails number loaded.now (buffer out.old out.new len.new) result }
    ensures none_held { HoldsNone loaded.now → result.status ≡ 7 }
    ensures status { HasStatus result.status (0 ∷ 1 ∷ 4 ∷ 5 ∷ 7 ∷ []) }
{
    *len = 0;
    let Some(index) = &loaded.index else {
        return no_index();
    };
    let Some(found) = index.package(number) else {
        return no();
    };
    match details_of(loaded.alloc, &found) {
        Ok(details) => reply(at_line(found.line()), &details, out, len),
        Err(AllocError) => no_memory(),
    }
}

/// What the index keeps of a package, in canonical text.
fn details_of(alloc: Global, found: &Package<'_>) -> Result<Vec<u8>, AllocError>
    ensures { IfOk result (λ details. details.items ≡ kept_text (listed_of found.now)) }
{
    let mut details = Vec::new(alloc);
    found.details_into(alloc, &mut details)?;
    Ok(details)
}

/// The answer 0 with a line of the file.
fn at_line(line: u64) -> Answer
    ensures { result ≡ at_line line }
{
    Answer { line, ..yes(0) }
}
