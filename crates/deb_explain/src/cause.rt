//! Finds what is wrong in a version or a relation, and where.

ghost use Rattle.std.specs.Prelude.{◌≡◌, ◌+◌, ◌≤◌, length, Some, None, IfOk};
ghost use Rattle.std.specs.List.{position_or_len, prefix_len};
ghost use Rattle.deb_base.specs.Bodies.{is_blank_byte};
ghost use Rattle.deb_field.specs.Sources.{is_open, without_last};
ghost use Rattle.deb_explain.specs.Causes.{cause_of, relation_cause, source_cause, version_cause};
ghost use Rattle.deb_explain.specs.Causes.{version_fault, word_cause};

use deb_base::{Code, is_blank_byte, trimmed};
use deb_field::{Doc, Kind, kind_of};
use deb_relation::{Reason, Relation, RelationFault};
use deb_version::{BadVersion, Version};
use std::alloc::{AllocError, Global};

/// What is wrong in the body of a field.
#[derive(Clone, Copy, Debug, PartialEq, Eq)]
pub enum Cause {
    /// A version has this fault. The fault's own offset counts from the first byte of the version,
    /// which is at the offset `start` of the body: 0, except in the field Source (Debian Policy
    /// 5.6.1 and 5.6.12).
    Version { fault: BadVersion, start: usize },
    /// Reading a relation stops for this reason, at the offset `at` of the body (Debian Policy
    /// 7.1).
    Relation { reason: Reason, at: usize },
}

/// What a command-line argument is read as.
#[derive(Clone, Copy, Debug, PartialEq, Eq)]
pub enum Word {
    /// A relation (Debian Policy 7.1).
    Relation,
    /// A version (Debian Policy 5.6.12).
    Version,
}

/// Returns what is wrong in a command-line argument, or `None` exactly if it is a relation, or a
/// version.
///
/// # Errors
///
/// Out of memory only, and only for a relation.
pub fn explain_word(alloc: Global, word: Word, text: &[u8]) -> Result<Option<Cause>, AllocError>
    ensures { IfOk result (λ cause. cause ≡ word_cause word text.now) }
{
    match word {
        Word::Relation => relation_cause(alloc, text),
        Word::Version => Ok(version_fault(0, text)),
    }
}

/// What is wrong in a body that is refused with this code in the field of this name: of a version
/// and of a relation, and of no other value.
pub(crate) fn cause_of(
    alloc: Global,
    doc: Doc,
    code: Code,
    name: &[u8],
    body: &[u8],
) -> Result<Option<Cause>, AllocError>
    ensures { IfOk result (λ cause. cause ≡ cause_of doc code name.now body.now) }
{
    match code {
        Code::BadVersion => Ok(version_cause(kind_of(doc, name), body)),
        Code::BadRelation => relation_cause(alloc, body),
        _ => Ok(None),
    }
}

/// What is wrong in a version, in a field of this kind.
fn version_cause(kind: Kind, body: &[u8]) -> Option<Cause>
    ensures { result ≡ version_cause kind body.now }
{
    match kind {
        Kind::Version => version_fault(0, body),
        Kind::Source => source_cause(body),
        _ => None,
    }
}

/// Returns what is wrong in the version in the parentheses of the field Source.
fn source_cause(body: &[u8]) -> Option<Cause>
    ensures { result ≡ source_cause body.now }
{
    let open = open_at(body);
    if open == body.len() {
        return None;
    }
    let within = without_last(&body[open + 1..]);
    version_fault(open + 1 + leading_blanks(within), trimmed(within))
}

fn without_last(text: &[u8]) -> &[u8]
    ensures { result.now ≡ without_last text.now }
{
    &text[..text.len().saturating_sub(1)]
}

/// How many spaces and tabs come first.
pub(crate) fn leading_blanks(text: &[u8]) -> usize
    ensures value { result ≡ prefix_len is_blank_byte text.now }
    ensures bound { result ≤ length text.now }
{
    text.iter().take_while(|byte| is_blank_byte(**byte)).count()
}

/// Returns the offset of the first opening parenthesis, or the length if there is none.
fn open_at(body: &[u8]) -> usize
    ensures value { result ≡ position_or_len is_open body.now }
    ensures bound { result ≤ length body.now }
{
    body.iter().take_while(|byte| **byte != b'(').count()
}

/// Returns the fault of a version at an offset of a body.
fn version_fault(start: usize, version: &[u8]) -> Option<Cause>
    ensures { result ≡ version_fault start version.now }
{
    match Version::parse(version) {
        Ok(_) => None,
        Err(fault) => Some(Cause::Version { fault, start }),
    }
}

/// Where and why the reading of a relation stops.
fn relation_cause(alloc: Global, body: &[u8]) -> Result<Option<Cause>, AllocError>
    ensures { IfOk result (λ cause. cause ≡ relation_cause body.now) }
{
    match Relation::parse(alloc, body) {
        Ok(_) => Ok(None),
        Err(RelationFault::Bad { reason, at }) => Ok(Some(Cause::Relation { reason, at })),
        Err(RelationFault::Memory) => Err(AllocError),
    }
}
