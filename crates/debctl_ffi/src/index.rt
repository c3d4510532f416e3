//! A loaded index, for programs in C.

ghost use Rattle.std.specs.Prelude.{◌≡◌, [], ◌∷◌};
ghost use Rattle.std.specs.Borrow.{full_share};
ghost use Rattle.std.specs.Ptr.{lies_at, room_at};
ghost use base.Fml.{flft};
ghost use denote.Param.{layout};
ghost use denote.Struct.Lending.{lent_at};
ghost use prog.Memory.{capped, size};
ghost use types.Logic.{sem};
ghost use Rattle.deb_index.specs.Named.{has_name, provides};
ghost use Rattle.deb_index.specs.Questions.{question};
ghost use Rattle.deb_relation.specs.Views.{names_of};
ghost use Rattle.deb_unmet.specs.declared.asked.Asked.{Asked};
ghost use Rattle.debctl_ffi.specs.Answers.{HasStatus};
ghost use Rattle.debctl_ffi.specs.Buffers.{buffer};
ghost use Rattle.debctl_ffi.specs.Loads.{AsksFiles, AsksNumbers, AsksPackage, AsksQuery, AsksUnmet, HoldsNone, IsLoading};
ghost use Rattle.debctl_ffi.specs.Loans.{Loan};
ghost use Rattle.debctl_ffi.specs.Unmet.{AsksNothing, IsAsked, asker, is_set};
ghost use Rattle.debctl_ffi.specs.contracts.loaded.Loaded.{the_row};
ghost use Rattle.debctl_ffi.specs.declared.loaded.Loaded.{Loaded as LoadedData};
ghost use Rattle.debctl_ffi.specs.declared.report.Detail.TheVariants.{Verdicts};

use crate::answer::Answer;
use crate::loaded::{Loaded, discard};
use std::alloc::Global;

/// Returns how many bytes the memory of a loaded index has.
#[unsafe(no_mangle)]
pub extern "C" fn deb_index_size() -> usize
    ensures size { result ≡ capped (size (layout the_row)) }
{
    size_of::<Loaded>()
}

/// Reads an index of packages into memory of the caller, of [`deb_index_size`] bytes, which may be
/// asked from then on and is freed by [`deb_index_free`]. Status 0: the file is accepted, with the
/// number of its packages. 2: it is refused, with its first refusal; nothing is loaded. 5: out of
/// memory; nothing is loaded.
#[unsafe(no_mangle)]
pub unsafe extern "C" fn deb_index_read(
    index: *mut u8,
    alloc: Global,
    text: &[u8],
    answer: &mut Answer,
)
    requires* room { sem 𝓛 (room_at the_row index) }
    ensures* loading { ∃ₛ (λ (loaded : LoadedData).
        sem 𝓛 (lies_at the_row full_share index loaded)
        ∗ ⌜ IsLoading text.now answer.new loaded ⌝) }
{
    let loaded = Loaded::read(alloc, text, answer);
    (index as *mut Loaded).write(loaded)
}

/// Frees what [`deb_index_read`] loaded. The memory is the caller's again.
#[unsafe(no_mangle)]
pub unsafe extern "C" fn deb_index_free(index: *mut u8)
    ghost loaded: { LoadedData }
    requires* loaded { sem 𝓛 (lies_at the_row full_share index loaded) }
    ensures* room { sem 𝓛 (room_at the_row index) }
{
    discard((index as *mut Loaded).read())
}

/// Writes the report of [`crate::query::deb_query`] on a loaded index. If it has several files, the
/// line of each package says which is the package's. Its statuses, and 7: nothing is loaded.
#[unsafe(no_mangle)]
pub unsafe extern "C" fn deb_index_query(
    index: *const u8,
    target: &[u8],
    profiles: &[&[u8]],
    relation: &[u8],
    out: &mut [u8],
    len: &mut usize,
) -> Answer
    ghost loan: { Loan LoadedData }
    requires* lent { sem 𝓛 (flft loan.lifetime loan.share)
        ∗ sem 𝓛 (lent_at the_row index loan.value loan.lifetime) }
    ensures* share { sem 𝓛 (flft loan.lifetime loan.share) }
    ensures answers { AsksQuery Verdicts
        (question target.now (names_of profiles.now) relation.now) loan.value
        (buffer out.old out.new len.new) result }
    ensures files { AsksFiles Verdicts
        (question target.now (names_of profiles.now) relation.now) loan.value
        (buffer out.old out.new len.new) result }
    ensures none_held { HoldsNone loan.value → result.status ≡ 7 }
    ensures status { HasStatus result.status (0 ∷ 1 ∷ 2 ∷ 4 ∷ 5 ∷ 7 ∷ []) }
{
    let loaded = &*(index as *const Loaded);
    Loaded::query(loaded, target, profiles, relation, out, len)
}

/// Writes the lines of [`crate::unmet::deb_unmet`] for a loaded index. Its statuses, and 7: nothing
/// is loaded.
#[unsafe(no_mangle)]
pub unsafe extern "C" fn deb_index_unmet(
    index: *const u8,
    kind: u8,
    recommends: u8,
    target: &[u8],
    profiles: &[&[u8]],
    file: &[u8],
    out: &mut [u8],
    len: &mut usize,
) -> Answer
    ghost loan: { Loan LoadedData }
    requires* lent { sem 𝓛 (flft loan.lifetime loan.share)
        ∗ sem 𝓛 (lent_at the_row index loan.value loan.lifetime) }
    ensures* share { sem 𝓛 (flft loan.lifetime loan.share) }
    ensures answers { AsksUnmet kind (is_set recommends) (asker target.now (names_of profiles.now))
        file.now loan.value (buffer out.old out.new len.new) result }
    ensures none_held { (asks : Asked) → IsAsked kind (is_set recommends) asks
        → HoldsNone loan.value → result.status ≡ 7 }
    ensures unknown_kind { AsksNothing kind (is_set recommends) → result.status ≡ 6 }
    ensures status { HasStatus result.status (0 ∷ 1 ∷ 2 ∷ 3 ∷ 4 ∷ 5 ∷ 6 ∷ 7 ∷ []) }
{
    let loaded = &*(index as *const Loaded);
    Loaded::unmet(loaded, kind, recommends, target, profiles, file, out, len)
}

/// Writes the numbers of the packages of a loaded index that have a name, counted from 1, in
/// ascending order, and returns how many there are. Status 0; 4: there is no room for them, and
/// `count` is how many there are; 7: nothing is loaded.
#[unsafe(no_mangle)]
pub unsafe extern "C" fn deb_index_packages(
    index: *const u8,
    name: &[u8],
    numbers: &mut [u64],
    count: &mut usize,
) -> Answer
    ghost loan: { Loan LoadedData }
    requires* lent { sem 𝓛 (flft loan.lifetime loan.share)
        ∗ sem 𝓛 (lent_at the_row index loan.value loan.lifetime) }
    ensures* share { sem 𝓛 (flft loan.lifetime loan.share) }
    ensures answers { AsksNumbers (has_name name.now) loan.value
        (buffer numbers.old numbers.new count.new) result }
    ensures none_held { HoldsNone loan.value → result.status ≡ 7 }
    ensures status { HasStatus result.status (0 ∷ 4 ∷ 7 ∷ []) }
{
    let loaded = &*(index as *const Loaded);
    Loaded::packages(loaded, name, numbers, count)
}

/// Writes the numbers of the packages of a loaded index that provide a name, counted from 1, in
/// ascending order, and returns how many there are. Status 0; 4: there is no room for them, and
/// `count` is how many there are; 7: nothing is loaded.
#[unsafe(no_mangle)]
pub unsafe extern "C" fn deb_index_providers(
    index: *const u8,
    name: &[u8],
    numbers: &mut [u64],
    count: &mut usize,
) -> Answer
    ghost loan: { Loan LoadedData }
    requires* lent { sem 𝓛 (flft loan.lifetime loan.share)
        ∗ sem 𝓛 (lent_at the_row index loan.value loan.lifetime) }
    ensures* share { sem 𝓛 (flft loan.lifetime loan.share) }
    ensures answers { AsksNumbers (provides name.now) loan.value
        (buffer numbers.old numbers.new count.new) result }
    ensures none_held { HoldsNone loan.value → result.status ≡ 7 }
    ensures status { HasStatus result.status (0 ∷ 4 ∷ 7 ∷ []) }
{
    let loaded = &*(index as *const Loaded);
    Loaded::providers(loaded, name, numbers, count)
}

/// Writes the name, the canonical version and the architecture of the package of a loaded index
/// that has a number, counted from 1, with a space between. Status 0; 1: there is no such package;
/// 4: `out` is too small; 5: out of memory; 7: nothing is loaded.
#[unsafe(no_mangle)]
pub unsafe extern "C" fn deb_index_package(
    index: *const u8,
    number: u64,
    out: &mut [u8],
    len: &mut usize,
) -> Answer
    ghost loan: { Loan LoadedData }
    requires* lent { sem 𝓛 (flft loan.lifetime loan.share)
        ∗ sem 𝓛 (lent_at the_row index loan.value loan.lifetime) }
    ensures* share { sem 𝓛 (flft loan.lifetime loan.share) }
    ensures answers { AsksPackage number loan.value
        (buffer out.old out.new len.new) result }
    ensures none_held { HoldsNone loan.value → result.status ≡ 7 }
    ensures status { HasStatus result.status (0 ∷ 1 ∷ 4 ∷ 5 ∷ 7 ∷ []) }
{
    let loaded = &*(index as *const Loaded);
    Loaded::package_at(loaded, number, out, len)
}
