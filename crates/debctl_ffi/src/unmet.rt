//! Which relations of a file nothing in an index meets, for programs in C.

ghost use Rattle.std.specs.Prelude.{◌≡◌, [], ◌∷◌};
ghost use Rattle.deb_relation.specs.Views.{names_of};
ghost use Rattle.debctl_ffi.specs.Answers.{HasStatus};
ghost use Rattle.debctl_ffi.specs.Buffers.{buffer};
ghost use Rattle.debctl_ffi.specs.Queries.{OfText};
ghost use Rattle.debctl_ffi.specs.Replies.{Replies};
ghost use Rattle.debctl_ffi.specs.Unmet.{AsksNothing, ListsUnmet, UnmetFails, asker, is_set};

use crate::answer::{Answer, no_kind, no_memory, refused, second_refused, some, yes};
use crate::asker::{Asker, asked_of};
use crate::buffer::reply;
use deb_base::Fault;
use std::alloc::Global;

/// Writes which relations of a file no package of an index meets, for a target architecture and
/// with these build profiles active, to the start of `out`, and returns the length of these lines
/// (Debian Policy 7.1, 7.2 and 7.7). Status 0: there is none. 1: there is one. With the number of
/// the file's paragraphs. 4: `out` is too small; `len` is the length that it needs. 5: out of
/// memory. 6: no kind with relations has this number, or Recommends is asked of sources: it is
/// asked if `recommends` isn't 0.
///
/// Status 2, refused: the target or a profile, with the code 23 and the line 0; else the index,
/// with its first refusal. 3: these are accepted and the file is refused, with its first refusal.
/// Except for status 0 and 1, `out` is unchanged.
#[unsafe(no_mangle)]
#[tactic(auto, using(crate::proofs::AskedNumbers::asks_something))]
pub extern "C" fn deb_unmet(
    alloc: Global,
    kind: u8,
    recommends: u8,
    target: &[u8],
    profiles: &[&[u8]],
    index: &[u8],
    text: &[u8],
    out: &mut [u8],
    len: &mut usize,
) -> Answer
    ensures answers { let by = asker target.now (names_of profiles.now) in
        Replies (ListsUnmet kind (is_set recommends) by (OfText index.now) text.now)
        (UnmetFails kind (is_set recommends) by (OfText index.now) text.now)
        (buffer out.old out.new len.new) result }
    ensures unknown_kind { AsksNothing kind (is_set recommends) → result.status ≡ 6 }
    ensures status { HasStatus result.status (0 ∷ 1 ∷ 2 ∷ 3 ∷ 4 ∷ 5 ∷ 6 ∷ []) }
{
    *len = 0;
    let Some(asked) = asked_of(kind, recommends != 0) else {
        return no_kind();
    };
    let asker = match Asker::read(alloc, target, profiles, index) {
        Ok(asker) => asker,
        Err(Fault::Refused(refusal)) => return refused(&refusal),
        Err(_) => return no_memory(),
    };
    let answered = asker.lines(alloc, asked, text);
    drop(asker);
    match answered {
        Ok((summary, lines)) => {
            if summary.is_empty {
                reply(yes(summary.paragraphs), &lines, out, len)
            } else {
                reply(some(summary.paragraphs), &lines, out, len)
            }
        }
        Err(Fault::Refused(refusal)) => second_refused(&refusal),
        Err(_) => no_memory(),
    }
}
