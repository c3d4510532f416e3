//! Finds a component of a version that is its own canonical text, at the beginning of a text.

ghost use Rattle.std.specs.Prelude.{◌≡◌, ◌≤◌, ◌∷◌, length, take, IfSome, IsTrue, MatchOption};
ghost use Rattle.std.specs.List.{prefix_len};
ghost use Rattle.deb_version.specs.Canonical.{component_text};
ghost use Rattle.deb_version.specs.Grammar.{is_revision_byte};
ghost use Rattle.deb_version.specs.Parts.{parts_of};

use crate::component::State::{Letter, LetterZero, Number, Padded, Text, Zero};

// At the index of each byte: 0 if no revision may contain it; of the others 2 if it is a letter, 3
// if it is a zero, 4 if it is another digit, and else 1.
static KINDS: [u8; 256] = [
    0, 0, 0, 0, 0, 0, 0, 0, 0, 0, 0, 0, 0, 0, 0, 0, 0, 0, 0, 0, 0, 0, 0, 0, 0, 0, 0, 0, 0, 0, 0, 0,
    0, 0, 0, 0, 0, 0, 0, 0, 0, 0, 0, 1, 0, 0, 1, 0, 3, 4, 4, 4, 4, 4, 4, 4, 4, 4, 0, 0, 0, 0, 0, 0,
    0, 2, 2, 2, 2, 2, 2, 2, 2, 2, 2, 2, 2, 2, 2, 2, 2, 2, 2, 2, 2, 2, 2, 2, 2, 2, 2, 0, 0, 0, 0, 0,
    0, 2, 2, 2, 2, 2, 2, 2, 2, 2, 2, 2, 2, 2, 2, 2, 2, 2, 2, 2, 2, 2, 2, 2, 2, 2, 2, 0, 0, 0, 1, 0,
    0, 0, 0, 0, 0, 0, 0, 0, 0, 0, 0, 0, 0, 0, 0, 0, 0, 0, 0, 0, 0, 0, 0, 0, 0, 0, 0, 0, 0, 0, 0, 0,
    0, 0, 0, 0, 0, 0, 0, 0, 0, 0, 0, 0, 0, 0, 0, 0, 0, 0, 0, 0, 0, 0, 0, 0, 0, 0, 0, 0, 0, 0, 0, 0,
    0, 0, 0, 0, 0, 0, 0, 0, 0, 0, 0, 0, 0, 0, 0, 0, 0, 0, 0, 0, 0, 0, 0, 0, 0, 0, 0, 0, 0, 0, 0, 0,
    0, 0, 0, 0, 0, 0, 0, 0, 0, 0, 0, 0, 0, 0, 0, 0, 0, 0, 0, 0, 0, 0, 0, 0, 0, 0, 0, 0, 0, 0, 0, 0,
];

// For each state a row, and in it the next state at the index of each kind.
static NEXT: [[State; 5]; 6] = [
    [Padded, Text, Letter, Zero, Number],
    [Padded, Text, Letter, LetterZero, Number],
    [Padded, Text, Letter, Padded, Padded],
    [Padded, Text, Letter, Padded, Padded],
    [Padded, Text, Letter, Number, Number],
    [Padded, Padded, Padded, Padded, Padded],
];

/// What comes last in the bytes that were read of a component.
#[derive(Clone, Copy)]
enum State {
    /// A byte that is neither a letter nor a digit; or no byte was read.
    Text,
    /// A letter.
    Letter,
    /// The number 0 after no letter.
    Zero,
    /// The number 0 after a letter: canonical text has it only if more follows.
    LetterZero,
    /// A number that doesn't begin with a zero.
    Number,
    /// A number with leading zeros, or what follows one: the component isn't canonical.
    Padded,
}

impl State {
    ghost use Rattle.deb_version.specs.States.{leads, may_end};

    /// The state after one more byte, which a revision may contain.
    fn after(self, byte: u8) -> State
        ensures { IsTrue (leads self byte result) }
    {
        NEXT[self as usize][KINDS[byte as usize] as usize]
    }

    /// Whether a component that ends here is its own canonical text.
    fn may_end(self) -> bool
        ensures { result ≡ may_end self }
    {
        !matches!(self, Text | LetterZero | Padded)
    }
}

/// Whether a revision may contain a byte.
pub(crate) fn is_allowed_in_revision(byte: u8) -> bool
    ensures { result ≡ is_revision_byte byte }
{
    KINDS[byte as usize] != 0
}

/// The first byte, if a revision may contain it, and what follows it.
fn cut_byte(text: &[u8]) -> Option<(u8, &[u8])>
    ensures { MatchOption result (prefix_len is_revision_byte text.now ≡ 0)
        (λ p. (text.now ≡ p.0 ∷ p.1.now) × IsTrue (is_revision_byte p.0)) }
{
    match text {
        [byte, after @ ..] if is_allowed_in_revision(*byte) => Some((*byte, after)),
        _ => None,
    }
}

/// The length of the component that a text begins with, if it is spelled as its canonical text: it
/// ends before the first byte that isn't allowed in a revision.
pub(crate) fn canonical_component(text: &[u8]) -> Option<usize>
    ensures bound { IfSome result (λ n. n ≤ length text.now) }
    ensures run { IfSome result (λ n. n ≡ prefix_len is_revision_byte text.now) }
    ensures canonical { IfSome result
        (λ n. component_text (parts_of (take n text.now)) ≡ take n text.now) }
{
    let mut state = Text;
    let mut rest = text;
    while let Some((byte, after)) = cut_byte(rest) {
        state = state.after(byte);
        rest = after;
    }
    if state.may_end() {
        Some(text.len() - rest.len())
    } else {
        None
    }
}
