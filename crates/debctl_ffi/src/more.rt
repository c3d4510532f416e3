//! One more file of a loaded index, packages that are left out, and the file of a package, for
//! programs in C.

ghost use Rattle.std.specs.Prelude.{◌≡◌, [], ◌∷◌};
ghost use Rattle.std.specs.Borrow.{full_share};
ghost use Rattle.std.specs.Ptr.{lies_at};
ghost use base.Fml.{flft};
ghost use denote.Struct.Lending.{lent_at};
ghost use types.Logic.{sem};
ghost use Rattle.deb_relation.specs.Views.{names_of};
ghost use Rattle.debctl_ffi.specs.Answers.{HasStatus};
ghost use Rattle.debctl_ffi.specs.Loads.{AsksFile, HoldsNone, IsLoadingMore, IsWithout};
ghost use Rattle.debctl_ffi.specs.Loans.{Loan};
ghost use Rattle.debctl_ffi.specs.contracts.loaded.Loaded.{the_row};
ghost use Rattle.debctl_ffi.specs.declared.loaded.Loaded.{Loaded as LoadedData};

use crate::answer::Answer;
use crate::loaded::Loaded;

/// Reads one more file of packages into a loaded index: they follow those that it has, and their
/// numbers count on. Status 0: the file is accepted, with the number of all packages. 2: it is
/// refused, with its first refusal. 5: out of memory. After 2 and 5 nothing is loaded. 7: nothing
/// is loaded.
#[unsafe(no_mangle)]
pub unsafe extern "C" fn deb_index_read_more(index: *mut u8, text: &[u8], answer: &mut Answer)
    ghost before: { LoadedData }
    requires* loaded { sem 𝓛 (lies_at the_row full_share index before) }
    ensures* loading { ∃ₛ (λ (loaded : LoadedData).
        sem 𝓛 (lies_at the_row full_share index loaded)
        ∗ ⌜ IsLoadingMore text.now answer.new before loaded ⌝) }
{
    let loaded = Loaded::read_more((index as *mut Loaded).read(), text, answer);
    (index as *mut Loaded).write(loaded)
}

/// Takes the packages that have one of these names out of a loaded index. The others keep their
/// order and are numbered anew; each file is still one of the index. Status 0, with the number of
/// packages that are left. 5: out of memory; nothing is loaded. 7: nothing is loaded.
#[unsafe(no_mangle)]
pub unsafe extern "C" fn deb_index_without(index: *mut u8, names: &[&[u8]], answer: &mut Answer)
    ghost before: { LoadedData }
    requires* loaded { sem 𝓛 (lies_at the_row full_share index before) }
    ensures* leaving { ∃ₛ (λ (loaded : LoadedData).
        sem 𝓛 (lies_at the_row full_share index loaded)
        ∗ ⌜ IsWithout (names_of names.now) answer.new before loaded ⌝) }
{
    let loaded = Loaded::without((index as *mut Loaded).read(), names, answer);
    (index as *mut Loaded).write(loaded)
}

/// Finds which file the package of a loaded index with a number is of, counted from 1: 1 is the
/// file that was read first. Status 0; 1: there is no such package, `file` is 0; 7: nothing is
/// loaded.
#[unsafe(no_mangle)]
pub unsafe extern "C" fn deb_index_file(index: *const u8, number: u64, file: &mut usize) -> Answer
    ghost loan: { Loan LoadedData }
    requires* lent { sem 𝓛 (flft loan.lifetime loan.share)
        ∗ sem 𝓛 (lent_at the_row index loan.value loan.lifetime) }
    ensures* share { sem 𝓛 (flft loan.lifetime loan.share) }
    ensures answers { AsksFile number loan.value file.new result }
    ensures none_held { HoldsNone loan.value → result.status ≡ 7 }
    ensures status { HasStatus result.status (0 ∷ 1 ∷ 7 ∷ []) }
{
    let loaded = &*(index as *const Loaded);
    Loaded::file_of(loaded, number, file)
}
