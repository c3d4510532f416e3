//! The field Source: the name of a source package, with or without a version.

ghost use Rattle.std.specs.Prelude.{◌≡◌, ◌+◌, ◌++◌, ◌-◌, ◌^◌, ◌<◌, ◌≤◌, Some, IfOk, IfErr, IsTrue, OnOk, OnErr, MatchOption, true, false, length, take};
ghost use Rattle.std.specs.List.{before_first, after_first, position_or_len};
ghost use Rattle.std.specs.Option.{option_map};
ghost use Rattle.deb_base.specs.PackageNames.{is_package_name};
ghost use Rattle.deb_version.specs.Canonical.{Extends};
ghost use Rattle.deb_version.specs.Version.{meaning_of};
ghost use Rattle.deb_field.specs.Sources.{source_of, SpellsSource, source_text, refusal_around, source_refusal, has_version, is_open, is_closed, without_last};

use crate::canon::Canon;
use crate::one_line::refusal_of_line;
use deb_base::{Code, is_package_name, trimmed, without_trailing_blanks};
use deb_version::Version;
use std::alloc::AllocError;

/// The name of a source package, and its version if there is one (Debian Policy 5.6.1).
#[derive(Clone, Copy, Debug)]
pub struct SourceName<'a> {
    name: &'a [u8],
    version: Option<Version<'a>>,
    ghost well_formed: { IsTrue (is_package_name name.now) },
    ghost short: { length (source_text (source_of name.now (option_map meaning_of version)))
        < 2 ^ 64 },
}

impl<'a> SourceName<'a> {
    ghost use Rattle.deb_field.specs.SourceNames.{source_meaning, ReadsAround};

    /// Parses `name` or `name (version)`. Spaces and tabs may come before the parenthesis and
    /// inside it.
    ///
    /// # Errors
    ///
    /// `NotOneLine` for a body of more than one line; else `BadName` if the name isn't the name of
    /// a package, or if the body has an opening parenthesis and doesn't end with a closing one;
    /// else `BadVersion` if the text in the parentheses isn't a version.
    pub fn parse(body: &'a [u8]) -> Result<SourceName<'a>, Code>
        ensures ok { IfOk result (λ source. SpellsSource body.now (source_meaning source)) }
        ensures refused { IfErr result (λ code. source_refusal body.now ≡ Some code) }
    {
        if let Some((before, behind)) = cut_at_open(body) {
            return match SourceName::with_version(before, behind) {
                Ok(source) => Ok(source),
                Err(code) => Err(refusal_of_line(body, code)),
            };
        }
        if !is_package_name(body) {
            return Err(refusal_of_line(body, Code::BadName));
        }
        Ok(SourceName {
            name: body,
            version: None,
        })
    }

    /// Returns the bytes of the name.
    pub fn name(&self) -> &'a [u8]
        ensures { result.now ≡ (source_meaning self.now).name }
    {
        self.name
    }

    /// Returns the version, if there is one.
    pub fn version(&self) -> Option<Version<'a>>
        ensures { option_map meaning_of result ≡ (source_meaning self.now).version }
    {
        self.version
    }

    /// Returns the source of the texts before and after the first opening parenthesis.
    fn with_version(before: &'a [u8], behind: &'a [u8]) -> Result<SourceName<'a>, Code>
        requires { length before.now + length behind.now < 2 ^ 63 }
        ensures ok { IfOk result (λ source. ReadsAround before.now behind.now
            (source_meaning source)) }
        ensures refused { IfErr result (λ code. refusal_around before.now behind.now ≡ Some code) }
    {
        let name = without_trailing_blanks(before);
        if !is_package_name(name) || !is_closed(behind) {
            return Err(Code::BadName);
        }
        match Version::parse(trimmed(without_last(behind))) {
            Ok(version) => Ok(SourceName {
                name,
                version: Some(version),
            }),
            Err(_) => Err(Code::BadVersion),
        }
    }
}

/// Returns the texts before and after the first opening parenthesis.
fn cut_at_open(body: &[u8]) -> Option<(&[u8], &[u8])>
    ensures { MatchOption result (has_version body.now ≡ false)
        (λ cut. (has_version body.now ≡ true) × (cut.0.now ≡ before_first is_open body.now)
        × (cut.1.now ≡ after_first is_open body.now)) }
{
    let at = open_at(body);
    if at == body.len() {
        None
    } else {
        Some((&body[..at], &body[at + 1..]))
    }
}

/// Returns the offset of the first opening parenthesis, or the length if there is none.
fn open_at(body: &[u8]) -> usize
    ensures value { result ≡ position_or_len is_open body.now }
    ensures bound { result ≤ length body.now }
{
    body.iter().take_while(|byte| **byte != b'(').count()
}

/// Whether a closing parenthesis comes last.
fn is_closed(text: &[u8]) -> bool
    ensures { result ≡ is_closed text.now }
{
    let count = text.len();
    count > 0 && text[count - 1] == b')'
}

fn without_last(text: &[u8]) -> &[u8]
    ensures { result.now ≡ without_last text.now }
{
    &text[..text.len().saturating_sub(1)]
}
