//! Buffers of the caller in C.

ghost use Rattle.std.specs.Prelude.{IsFalse, IsTrue};
ghost use Rattle.debctl_ffi.specs.Buffers.{Gives, LacksRoom, buffer};
ghost use Rattle.debctl_ffi.specs.Replies.{RepliesWith};

use crate::answer::{Answer, no_room};

/// Returns an answer and copies items to the start of a buffer, if it has room for all of them;
/// else the answer 4. `len` becomes their number in both cases.
pub(crate) fn reply<T: Copy>(answer: Answer, items: &[T], out: &mut [T], len: &mut usize) -> Answer
    ensures { RepliesWith answer items.now (buffer out.old out.new len.new) result }
{
    if give(items, out, len) {
        answer
    } else {
        no_room()
    }
}

/// Copies items to the start of a buffer, if it has room for all of them, and returns whether it
/// has. `len` becomes their number in both cases.
fn give<T: Copy>(items: &[T], out: &mut [T], len: &mut usize) -> bool
    ensures room { IsTrue result → Gives items.now (buffer out.old out.new len.new) }
    ensures no_room { IsFalse result → LacksRoom items.now (buffer out.old out.new len.new) }
{
    *len = items.len();
    if items.len() > out.len() {
        return false;
    }
    out[..items.len()].copy_from_slice(items);
    true
}
