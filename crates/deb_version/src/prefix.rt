//! Finds a version that is its own canonical text at the beginning of a text.

ghost use Rattle.std.specs.Prelude.{◌≡◌, ◌≢◌, ◌<◌, ◌≤◌, ◌+◌, ◌∷◌, ℕ, List, true, false, None, IfSome, IsTrue, IsFalse, length, take, drop};
ghost use Rattle.std.specs.List.{prefix_len};
ghost use Rattle.deb_version.specs.Parts.{IsDigits};
ghost use Rattle.deb_version.specs.Canonical.{version_text};
ghost use Rattle.deb_version.specs.Faults.{first_fault};
ghost use Rattle.deb_version.specs.Grammar.{is_upstream_byte};
ghost use Rattle.deb_version.specs.Places.{version_in};

use crate::canonical::is_no_revision;
use crate::component::canonical_component;

/// Returns the length in bytes of the version that a text begins with, if this version is its own
/// canonical text.
///
/// The version is the longest run of bytes that a version may contain: ASCII letters, digits, `+`,
/// `-`, `.`, `:` and `~` (Debian Policy 5.6.12). `None` says nothing about it: there may be no
/// version, it may have another canonical text, or it may be one of the few canonical versions with
/// several hyphens or with a colon after that of the epoch. Takes no memory.
pub fn canonical_prefix(text: &[u8]) -> Option<usize>
    ensures bound { IfSome result (λ n. n ≤ length text.now) }
    ensures run { IfSome result (λ n. n ≡ prefix_len (is_upstream_byte true) text.now) }
    ensures faultless { IfSome result (λ n. first_fault (take n text.now) ≡ None) }
    ensures canonical { IfSome result
        (λ n. version_text (version_in (take n text.now)) ≡ take n text.now) }
{
    let front = without_epoch(text)?;
    if !has_byte_at(text, front, b':') {
        return Some(front);
    }
    if has_byte_at(text, 0, b'0') || !are_digits(&text[..front]) {
        return None;
    }
    let rest = &text[front + 1..];
    let len = without_epoch(rest)?;
    if has_byte_at(rest, len, b':') {
        return None;
    }
    Some(front + 1 + len)
}

/// The same where the version has no epoch: its bytes end before a colon.
fn without_epoch(text: &[u8]) -> Option<usize>
    ensures bound { IfSome result (λ n. n ≤ length text.now) }
    ensures run { IfSome result (λ n. n ≡ prefix_len (is_upstream_byte false) text.now) }
    ensures faultless { IfSome result (λ n. first_fault (take n text.now) ≡ None) }
    ensures canonical { IfSome result
        (λ n. version_text (version_in (take n text.now)) ≡ take n text.now) }
{
    let upstream = canonical_component(text)?;
    if !has_byte_at(text, upstream, b'-') {
        return Some(upstream);
    }
    let rest = &text[upstream + 1..];
    let revision = canonical_component(rest)?;
    if is_no_revision(&rest[..revision]) || has_byte_at(rest, revision, b'-') {
        return None;
    }
    Some(upstream + 1 + revision)
}

/// Whether a text has this byte at this offset.
fn has_byte_at(text: &[u8], at: usize, byte: u8) -> bool
    ensures within { IsTrue result → at < length text.now }
    ensures here { IsTrue result → drop at text.now ≡ byte ∷ drop (at + 1) text.now }
    ensures other { IsFalse result → (rest : List ℕ) → drop at text.now ≢ byte ∷ rest }
{
    at < text.len() && text[at] == byte
}

fn are_digits(bytes: &[u8]) -> bool
    ensures { IsTrue result → IsDigits bytes.now }
{
    bytes.iter().all(|byte| byte.is_ascii_digit())
}
