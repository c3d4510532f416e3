//! Joins lines that follow one another and are spelled alike, so that they are sorted as one.

ghost use Rattle.std.specs.Prelude.{◌≡◌, ◌≤◌, None, Some, length, IfOk, IfErr};
ghost use Rattle.std.specs.List.{prefix_len};
ghost use Rattle.std.specs.Str.{bytes_eq};
ghost use Rattle.deb_base.specs.Faults.{RefusedOrMemory};
ghost use Rattle.deb_syntax.specs.Lines.{lines_of};
ghost use Rattle.deb_version.specs.Kept.{text_of};
ghost use Rattle.deb_sort.specs.Refusals.{refusal_of};
ghost use Rattle.deb_sort.specs.VersionLines.{lines_of_runs, texts_of};

use crate::cut::version_lines;
use deb_base::Fault;
use deb_version::VersionText;
use std::alloc::{AllocError, Global};

/// A run of lines that are spelled alike.
#[derive(Clone, Copy)]
pub(crate) struct EqualLines<'a> {
    /// One of the lines.
    pub(crate) line: VersionText<'a>,
    /// How many they are.
    pub(crate) count: usize,
}

/// The lines of a text, each a version, in runs of equal ones; or the refusal of the text.
pub(crate) fn equal_lines<'a>(alloc: Global, text: &'a [u8]) -> Result<Vec<EqualLines<'a>>, Fault>
    ensures ok { IfOk result (λ runs. lines_of_runs runs.items ≡ lines_of text.now) }
    ensures accepted { IfOk result (λ _. refusal_of text.now ≡ None) }
    ensures fault { IfErr result
        (λ fault. RefusedOrMemory fault (λ refusal. refusal_of text.now ≡ Some refusal)) }
{
    let lines = version_lines(alloc, text)?;
    let runs = join_equal(alloc, lines.as_slice())?;
    Ok(runs)
}

/// The runs of equal lines.
fn join_equal<'a>(
    alloc: Global,
    lines: &[VersionText<'a>],
) -> Result<Vec<EqualLines<'a>>, AllocError>
    ensures { IfOk result (λ runs. lines_of_runs runs.items ≡ texts_of lines.now) }
{
    let mut runs = Vec::with_capacity(alloc, lines.len())?;
    let mut at = 0;
    while at < lines.len() {
        let line = lines[at];
        let count = 1 + equal_len(line, &lines[at + 1..]);
        runs.push(EqualLines { line, count })?;
        at += count;
    }
    Ok(runs)
}

/// How many lines at the beginning are spelled as this one.
fn equal_len(line: VersionText<'_>, lines: &[VersionText<'_>]) -> usize
    ensures value { result
        ≡ prefix_len (λ other. bytes_eq (text_of other) (text_of line.entry)) lines.now }
    ensures bound { result ≤ length lines.now }
{
    lines
        .iter()
        .take_while(|other| other.text() == line.text())
        .count()
}
