//! The answers to C.

ghost use Rattle.std.specs.Prelude.{◌≡◌};
ghost use Rattle.debctl_ffi.specs.Answers.{counting, plain, refusing, refusing_some};

use deb_base::Refusal;

/// The answer of a call: its status, and what belongs to it.
///
/// The statuses are those of `deb_status` in `include/debctl.h`.
#[repr(C)]
#[derive(Clone, Copy, Debug, PartialEq, Eq)]
pub struct Answer {
    /// The status of the call.
    pub status: u8,
    /// The code of the refusal, from 1 to 23, if a text is refused, else 0.
    pub code: u8,
    /// The line of the refusal in a file, from 1; 0 for any other text, and if nothing is refused.
    pub line: u64,
    /// The number of paragraphs of the file, if the call returns it, else 0.
    pub count: u64,
}

/// The answer 0: done, or yes. With the number of paragraphs.
pub(crate) fn yes(count: u64) -> Answer
    ensures { result ≡ counting 0 count }
{
    Answer {
        status: 0,
        code: 0,
        line: 0,
        count,
    }
}

/// The answer 1: no. With the number of paragraphs.
pub(crate) fn some(count: u64) -> Answer
    ensures { result ≡ counting 1 count }
{
    Answer {
        status: 1,
        ..yes(count)
    }
}

/// The answer 1: no.
pub(crate) fn no() -> Answer
    ensures { result ≡ plain 1 }
{
    bare(1)
}

/// The answer 2: the text is refused, or the first of two.
pub(crate) fn refused(refusal: &Refusal) -> Answer
    ensures { result ≡ refusing 2 refusal.now }
{
    Answer {
        status: 2,
        code: refusal.number(),
        line: refusal.line,
        count: 0,
    }
}

/// The answer 2: the text isn't what it is read as, without a code.
pub(crate) fn unread() -> Answer
    ensures { result ≡ plain 2 }
{
    bare(2)
}

/// The answer 2: some of a file is refused, and so many paragraphs pass.
pub(crate) fn some_refused(first: &Refusal, passed: u64) -> Answer
    ensures { result ≡ refusing_some first.now passed }
{
    Answer {
        count: passed,
        ..refused(first)
    }
}

/// The answer 3: the first text is accepted, and the second is refused.
pub(crate) fn second_refused(refusal: &Refusal) -> Answer
    ensures { result ≡ refusing 3 refusal.now }
{
    Answer {
        status: 3,
        ..refused(refusal)
    }
}

/// The answer 3: the text at this place is no condition.
pub(crate) fn no_condition(place: u64) -> Answer
    ensures { result ≡ counting 3 place }
{
    Answer {
        count: place,
        ..bare(3)
    }
}

/// The answer 4: the buffer has no room.
pub(crate) fn no_room() -> Answer
    ensures { result ≡ plain 4 }
{
    bare(4)
}

/// The answer 5: a growth of memory was refused.
pub(crate) fn no_memory() -> Answer
    ensures { result ≡ plain 5 }
{
    bare(5)
}

/// The answer 6: there is no kind of document of this number.
pub(crate) fn no_kind() -> Answer
    ensures { result ≡ plain 6 }
{
    bare(6)
}

/// The answer 7: no index was loaded.
pub(crate) fn no_index() -> Answer
    ensures { result ≡ plain 7 }
{
    bare(7)
}

/// A status that nothing goes with.
fn bare(status: u8) -> Answer
    ensures { result ≡ plain status }
{
    Answer {
        status,
        code: 0,
        line: 0,
        count: 0,
    }
}
