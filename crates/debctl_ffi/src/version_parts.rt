//! The parts of a version, for programs in C.

ghost use Rattle.std.specs.Prelude.{◌≡◌, ◌+◌, ◌<◌, ◌^◌, [], ◌∷◌, length, option_copied};
ghost use Rattle.deb_version.specs.Grammar.{epoch_text, revision_text};
ghost use Rattle.deb_version.specs.Places.{components_in, epoch_in, rest_in, revision_in, upstream_in};
ghost use Rattle.debctl_ffi.specs.Answers.{HasStatus};
ghost use Rattle.debctl_ffi.specs.VersionParts.{HasParts, flag, no_parts, part_at, part_length, parts_of};
ghost use Rattle.debctl_ffi.specs.Versions.{IsNoVersion};

use deb_version::Version;

/// The parts of a version as they are spelled: offsets and lengths in its text. A part that isn't
/// there has the offset 0 and the length 0.
#[repr(C)]
#[derive(Clone, Copy, Debug, PartialEq, Eq)]
pub struct VersionParts {
    /// 0: the text is a version; 2: it isn't.
    pub status: u8,
    /// The code of the refusal, 18, if the text isn't a version, else 0.
    pub code: u8,
    /// 1 if there is an epoch, else 0.
    pub has_epoch: u8,
    /// 1 if there is a revision, else 0.
    pub has_revision: u8,
    /// The length of the epoch, which starts at the offset 0 and ends before the first colon.
    pub epoch_length: usize,
    /// The offset of the upstream version.
    pub upstream: usize,
    /// The length of the upstream version.
    pub upstream_length: usize,
    /// The offset of the revision.
    pub revision: usize,
    /// The length of the revision.
    pub revision_length: usize,
}

/// Cuts a version into its parts as they are spelled (Debian Policy 5.6.12). Status 0: done. 2: the
/// text isn't a version, with the code 18. No memory is taken.
#[unsafe(no_mangle)]
#[tactic(auto, using(crate::proofs::VersionParts::has_parts))]
pub extern "C" fn deb_version_parts(text: &[u8]) -> VersionParts
    ensures done { result.status ≡ 0 → HasParts text.now result }
    ensures refused { result.status ≡ 2 → IsNoVersion text.now × (result ≡ no_parts) }
    ensures status { HasStatus result.status (0 ∷ 2 ∷ []) }
{
    match Version::parse(text) {
        Ok(_) => parts_of(text),
        Err(_) => no_parts(),
    }
}

/// The answer for a text that isn't a version.
fn no_parts() -> VersionParts
    ensures { result ≡ no_parts }
{
    VersionParts {
        status: 2,
        code: 18,
        has_epoch: 0,
        has_revision: 0,
        epoch_length: 0,
        upstream: 0,
        upstream_length: 0,
        revision: 0,
        revision_length: 0,
    }
}

/// The parts into which a text is cut.
#[tactic(auto, using(crate::proofs::VersionParts::cut_length))]
fn parts_of(text: &[u8]) -> VersionParts
    ensures { result ≡ parts_of (components_in text.now) }
{
    let (epoch, rest) = cut_epoch(text);
    let (upstream, revision) = cut_revision(rest);
    let upstream_at = upstream_at(epoch);
    VersionParts {
        status: 0,
        code: 0,
        has_epoch: flag(epoch.is_some()),
        has_revision: flag(revision.is_some()),
        epoch_length: part_length(epoch),
        upstream: upstream_at,
        upstream_length: upstream.len(),
        revision: revision_at(upstream_at, upstream, revision),
        revision_length: part_length(revision),
    }
}

/// Where the upstream version begins: after the epoch and its colon.
fn upstream_at(epoch: Option<&[u8]>) -> usize
    requires { length (epoch_text (option_copied epoch)) < 2 ^ 64 }
    ensures { result ≡ length (epoch_text (option_copied epoch.entry)) }
{
    match epoch {
        Some(digits) => digits.len() + 1,
        None => 0,
    }
}

/// Where the revision begins: after the upstream version and a hyphen; or 0 if it isn't there.
fn revision_at(upstream_at: usize, upstream: &[u8], revision: Option<&[u8]>) -> usize
    requires { upstream_at + length upstream.now
        + length (revision_text (option_copied revision)) < 2 ^ 64 }
    ensures { result
        ≡ part_at (upstream_at + length upstream.now + 1) (option_copied revision.entry) }
{
    match revision {
        Some(_) => upstream_at + upstream.len() + 1,
        None => 0,
    }
}

fn flag(is_there: bool) -> u8
    ensures { result ≡ flag is_there }
{
    if is_there { 1 } else { 0 }
}

/// The length of a part, or 0 if it isn't there.
fn part_length(part: Option<&[u8]>) -> usize
    ensures { result ≡ part_length (option_copied part.entry) }
{
    match part {
        Some(part) => part.len(),
        None => 0,
    }
}

/// The epoch, which ends at the first colon, if there is a colon; and what follows it.
fn cut_epoch(text: &[u8]) -> (Option<&[u8]>, &[u8])
    ensures epoch { option_copied result.0 ≡ epoch_in text.now }
    ensures rest { result.1.now ≡ rest_in text.now }
{
    match text.iter().position(|&b| b == b':') {
        Some(at) => (Some(&text[..at]), &text[at + 1..]),
        None => (None, text),
    }
}

/// The upstream version; and the revision, which follows the last hyphen, if there is a hyphen.
fn cut_revision(rest: &[u8]) -> (&[u8], Option<&[u8]>)
    ensures upstream { result.0.now ≡ upstream_in rest.now }
    ensures revision { option_copied result.1 ≡ revision_in rest.now }
{
    match rest.iter().rposition(|&b| b == b'-') {
        Some(at) => (&rest[..at], Some(&rest[at + 1..])),
        None => (rest, None),
    }
}
