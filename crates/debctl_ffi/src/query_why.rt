//! Queries with reasons, for programs in C.

ghost use Rattle.std.specs.Prelude.{◌≡◌, [], ◌∷◌};
ghost use base.Fml.{flft};
ghost use denote.Struct.Lending.{lent_at};
ghost use types.Logic.{sem};
ghost use Rattle.deb_index.specs.Questions.{question};
ghost use Rattle.deb_relation.specs.Views.{names_of};
ghost use Rattle.debctl_ffi.specs.Answers.{HasStatus};
ghost use Rattle.debctl_ffi.specs.Buffers.{buffer};
ghost use Rattle.debctl_ffi.specs.Loads.{AsksFiles, AsksQuery, HoldsNone};
ghost use Rattle.debctl_ffi.specs.Loans.{Loan};
ghost use Rattle.debctl_ffi.specs.Queries.{OfText, QueryFails, Reports};
ghost use Rattle.debctl_ffi.specs.Replies.{Replies};
ghost use Rattle.debctl_ffi.specs.contracts.loaded.Loaded.{the_row};
ghost use Rattle.debctl_ffi.specs.declared.loaded.Loaded.{Loaded as LoadedData};

use crate::answer::{Answer, no, no_memory, refused, yes};
use crate::buffer::reply;
use crate::loaded::Loaded;
use crate::report::{Detail, report_on};
use deb_base::Fault;
use std::alloc::Global;

/// Writes what [`crate::query::deb_query`] writes, and below each group that is unmet or ignored
/// the lines that say why it is: those that the program `debctl query --why` writes. The statuses
/// are those of [`crate::query::deb_query`].
#[unsafe(no_mangle)]
pub extern "C" fn deb_query_why(
    alloc: Global,
    target: &[u8],
    profiles: &[&[u8]],
    relation: &[u8],
    index: &[u8],
    out: &mut [u8],
    len: &mut usize,
) -> Answer
    ensures answers { let asked = question target.now (names_of profiles.now) relation.now in
        Replies (Reports Detail.Reasons asked (OfText index.now))
        (QueryFails asked (OfText index.now)) (buffer out.old out.new len.new) result }
    ensures status { HasStatus result.status (0 ∷ 1 ∷ 2 ∷ 4 ∷ 5 ∷ []) }
{
    *len = 0;
    match report_on(alloc, Detail::Reasons, target, profiles, relation, index) {
        Ok((true, report)) => reply(yes(0), &report, out, len),
        Ok((false, report)) => reply(no(), &report, out, len),
        Err(Fault::Refused(refusal)) => refused(&refusal),
        Err(_) => no_memory(),
    }
}

/// Writes the report of [`deb_query_why`] on a loaded index. If it has several files, the line of
/// each package says which is the package's. Its statuses, and 7: nothing is loaded.
#[unsafe(no_mangle)]
pub unsafe extern "C" fn deb_index_query_why(
    index: *const u8,
    target: &[u8],
    profiles: &[&[u8]],
    relation: &[u8],
    out: &mut [u8],
    len: &mut usize,
) -> Answer
    ghost loan: { Loan LoadedData }
    requires* lent { sem 𝓛 (flft loan.lifetime loan.share)
        ∗ sem 𝓛 (lent_at the_row index loan.value loan.lifetime) }
    ensures* share { sem 𝓛 (flft loan.lifetime loan.share) }
    ensures answers { AsksQuery Detail.Reasons
        (question target.now (names_of profiles.now) relation.now) loan.value
        (buffer out.old out.new len.new) result }
    ensures files { AsksFiles Detail.Reasons
        (question target.now (names_of profiles.now) relation.now) loan.value
        (buffer out.old out.new len.new) result }
    ensures none_held { HoldsNone loan.value → result.status ≡ 7 }
    ensures status { HasStatus result.status (0 ∷ 1 ∷ 2 ∷ 4 ∷ 5 ∷ 7 ∷ []) }
{
    let loaded = &*(index as *const Loaded);
    Loaded::query_why(loaded, target, profiles, relation, out, len)
}
