//! Cuts a text into the components of a version, and checks their bytes.

ghost use Rattle.std.specs.Prelude.{◌≡◌, ◌^◌, ◌<◌, ◌≤◌, ◌∷◌, None, Some, IfSome, IfOk, IfErr, IsFalse, IsTrue, length, option_copied};
ghost use Rattle.std.specs.List.{list_all, position, prefix_len};
ghost use Rattle.std.specs.Result.{result_err};
ghost use Rattle.deb_version.specs.Grammar.{are_components, components_with, epoch_text, spelling, is_upstream_byte, is_revision_byte, is_empty, some_passes, is_bad_in_upstream, is_bad_in_revision, first_of, epoch_faults, rest_faults};
ghost use Rattle.deb_version.specs.Places.{epoch_in, rest_in, upstream_in, revision_in};

use crate::component::is_allowed_in_revision;
use crate::fault::BadVersion;

// The epoch, which ends at the first colon, if there is a colon; and what follows it.
fn cut_epoch(text: &[u8]) -> (Option<&[u8]>, &[u8])
    ensures epoch { option_copied result.0 ≡ epoch_in text.now }
    ensures rest { result.1.now ≡ rest_in text.now }
{
    match text.iter().position(|&b| b == b':') {
        Some(at) => (Some(&text[..at]), &text[at + 1..]),
        None => (None, text),
    }
}

// The upstream version; and the revision, which follows the last hyphen, if there is a hyphen.
fn cut_revision(rest: &[u8]) -> (&[u8], Option<&[u8]>)
    ensures upstream { result.0.now ≡ upstream_in rest.now }
    ensures revision { option_copied result.1 ≡ revision_in rest.now }
{
    match rest.iter().rposition(|&b| b == b'-') {
        Some(at) => (&rest[..at], Some(&rest[at + 1..])),
        None => (rest, None),
    }
}

fn is_allowed_in_upstream(has_epoch: bool, b: u8) -> bool
    ensures { result ≡ is_upstream_byte has_epoch b }
{
    is_allowed_in_revision(b) || b == b'-' || (has_epoch && b == b':')
}

// The first fault of an epoch.
fn epoch_fault(epoch: Option<&[u8]>) -> Option<BadVersion>
    ensures { result ≡ first_of (epoch_faults (option_copied epoch.entry)) }
{
    let Some(digits) = epoch else {
        return None;
    };
    if digits.is_empty() {
        return Some(BadVersion::EpochEmpty);
    }
    if digits.iter().any(|b| !b.is_ascii_digit()) {
        return Some(BadVersion::EpochNotNumber);
    }
    None
}

// Where the upstream version begins: after the epoch and its colon.
fn upstream_at(epoch: Option<&[u8]>) -> usize
    requires { length (epoch_text (option_copied epoch)) < 2 ^ 64 }
    ensures { result ≡ length (epoch_text (option_copied epoch.entry)) }
{
    match epoch {
        Some(digits) => digits.len() + 1,
        None => 0,
    }
}

// The first byte that isn't allowed in an upstream version.
fn bad_in_upstream(has_epoch: bool, upstream: &[u8]) -> Option<usize>
    ensures { result ≡ position (is_bad_in_upstream has_epoch) upstream.now }
{
    upstream
        .iter()
        .position(|&b| !is_allowed_in_upstream(has_epoch, b))
}

fn is_empty_revision(revision: Option<&[u8]>) -> bool
    ensures { result ≡ some_passes is_empty (option_copied revision.entry) }
{
    match revision {
        Some(revision) => revision.is_empty(),
        None => false,
    }
}

// With how many bytes that a revision may contain a text begins.
fn revision_len(text: &[u8]) -> usize
    ensures value { result ≡ prefix_len is_revision_byte text.now }
    ensures bound { result ≤ length text.now }
{
    text.iter()
        .take_while(|b| is_allowed_in_revision(**b))
        .count()
}

// What follows a hyphen.
fn cut_hyphen(text: &[u8]) -> Option<&[u8]>
    ensures { IfSome result (λ rest. text.now ≡ 45 ∷ rest.now) }
{
    match text {
        [b'-', rest @ ..] => Some(rest),
        _ => None,
    }
}

fn are_allowed_in_revision(text: &[u8]) -> bool
    ensures { result ≡ list_all is_revision_byte text.now }
{
    text.iter().all(|&b| is_allowed_in_revision(b))
}

// Whether a text is a revision.
fn is_revision(text: &[u8]) -> bool
    ensures { IsTrue result → IsFalse (is_empty text.now)
        × IsTrue (list_all is_revision_byte text.now) }
{
    !text.is_empty() && are_allowed_in_revision(text)
}

// The first byte that isn't allowed in a revision.
fn bad_in_revision(revision: &[u8]) -> Option<usize>
    ensures { result ≡ position is_bad_in_revision revision.now }
{
    revision.iter().position(|&b| !is_allowed_in_revision(b))
}

/// The texts of the components of a text, allowed or not.
#[derive(Clone, Copy)]
pub(crate) struct Pieces<'a> {
    pub(crate) epoch: Option<&'a [u8]>,
    pub(crate) upstream: &'a [u8],
    pub(crate) revision: Option<&'a [u8]>,
}

impl<'a> Pieces<'a> {
    ghost use Rattle.deb_version.specs.Faults.{first_fault};
    ghost use Rattle.deb_version.specs.Grammar.{fault_of};
    ghost use Rattle.deb_version.specs.Places.{components_in};
    ghost use Rattle.deb_version.specs.Pieces.{pieces_of};

    /// The components of a text.
    pub(crate) fn of(text: &'a [u8]) -> Self
        ensures { pieces_of result ≡ components_in text.now }
    {
        let (epoch, rest) = cut_epoch(text);
        let (upstream, revision) = cut_revision(rest);
        Pieces {
            epoch,
            upstream,
            revision,
        }
    }

    /// The components of a text without a fault that has no epoch and at most one hyphen, as most
    /// versions; `None` says nothing.
    fn plain(text: &'a [u8]) -> Option<Self>
        ensures { IfSome result (λ p. IsTrue (are_components (pieces_of p))
            × (text.now ≡ spelling (pieces_of p))) }
    {
        let (upstream, behind) = text.split_at(revision_len(text));
        if upstream.is_empty() {
            return None;
        }
        if behind.is_empty() {
            return Some(Pieces {
                epoch: None,
                upstream,
                revision: None,
            });
        }
        let revision = cut_hyphen(behind)?;
        if !is_revision(revision) {
            return None;
        }
        Some(Pieces {
            epoch: None,
            upstream,
            revision: Some(revision),
        })
    }

    /// The components of a text, or its first fault.
    pub(crate) fn judged(text: &'a [u8]) -> Result<Self, BadVersion>
        ensures ok { IfOk result (λ p. (pieces_of p ≡ components_in text.now)
            × (first_fault text.now ≡ None)) }
        ensures refused { IfErr result (λ e. first_fault text.now ≡ Some e) }
    {
        if let Some(pieces) = Pieces::plain(text) {
            return Ok(pieces);
        }
        let pieces = Pieces::of(text);
        match pieces.first_fault(text) {
            Some(fault) => Err(fault),
            None => Ok(pieces),
        }
    }

    /// The first fault of the components of a text.
    fn first_fault(self, text: &[u8]) -> Option<BadVersion>
        requires { pieces_of self ≡ components_in text.now }
        ensures { result ≡ fault_of (pieces_of self.entry) }
    {
        if text.is_empty() {
            return Some(BadVersion::Empty);
        }
        if let Some(fault) = epoch_fault(self.epoch) {
            return Some(fault);
        }
        self.rest_fault()
    }

    // The first fault of an upstream version or a revision, where the whole text fits.
    fn rest_fault(self) -> Option<BadVersion>
        requires { length (spelling (pieces_of self)) < 2 ^ 64 }
        ensures { result ≡ first_of (rest_faults (pieces_of self.entry)) }
    {
        if is_empty_revision(self.revision) {
            return Some(BadVersion::RevisionEmpty);
        }
        if self.upstream.is_empty() {
            return Some(BadVersion::UpstreamEmpty);
        }
        let upstream_at = upstream_at(self.epoch);
        if let Some(at) = bad_in_upstream(self.epoch.is_some(), self.upstream) {
            return Some(BadVersion::UpstreamByte {
                at: upstream_at + at,
            });
        }
        if let Some(at) = self.revision.and_then(bad_in_revision) {
            return Some(BadVersion::RevisionByte {
                at: upstream_at + self.upstream.len() + 1 + at,
            });
        }
        None
    }
}
