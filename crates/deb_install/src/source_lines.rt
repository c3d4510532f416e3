//! The lines of source packages.

ghost use Rattle.std.specs.Prelude.{◌≡◌, ◌++◌, IfOk, OnOk};
ghost use Rattle.deb_control.specs.Documents.{Meaning};
ghost use Rattle.deb_control.specs.Pairs.{Pairwise};
ghost use Rattle.deb_install.specs.Answers.{answer_at};
ghost use Rattle.deb_install.specs.KeptSources.{HoldsSource};
ghost use Rattle.deb_install.specs.SourceAnswers.{source_line, source_lines, source_words};
ghost use Rattle.deb_install.specs.SourceReasonLines.{source_head};
ghost use Rattle.deb_install.specs.declared.source_kind.SourceKind.{SourceKind};

use crate::answer::{Answer, answer_at};
use crate::kept_source::KeptSource;
use deb_solve::Verdict;
use deb_unmet::append_spaced;
use itoa::Buffer;
use std::alloc::{AllocError, Global};

/// Returns the lines of source packages, by verdicts in every reading and in one.
pub(crate) fn lines_of_sources(
    alloc: Global,
    sources: &[KeptSource],
    every: &[Verdict],
    one: &[Verdict],
) -> Result<Vec<u8>, AllocError>
    ensures { (kind : SourceKind) (meaning : Meaning)
        → Pairwise (HoldsSource kind) meaning sources.now → IfOk result (λ text. text.items
        ≡ source_lines kind (answer_at every.now one.now) meaning) }
{
    let mut text = Vec::new(alloc);
    for count in 0..sources.len() {
        let answer = answer_at(every, one, count);
        append_answer(&mut text, answer, count as u64 + 1, &sources[count])?;
    }
    Ok(text)
}

/// Appends the line of the source package with this number, if it has one.
pub(crate) fn append_answer(
    out: &mut Vec<u8>,
    answer: Answer,
    number: u64,
    source: &KeptSource,
) -> Result<(), AllocError>
    ensures { OnOk result (out.new.items ≡ out.old.items
        ++ source_line answer number source.now.name.items source.now.version.items) }
{
    match answer {
        Answer::Installable => Ok(()),
        Answer::Uninstallable => append_with(out, b"uninstallable", number, source),
        Answer::Unsure => append_with(out, b"unsure", number, source),
        Answer::Undecided => append_with(out, b"undecided", number, source),
    }
}

/// Appends a line that begins with a word.
fn append_with(
    out: &mut Vec<u8>,
    word: &[u8],
    number: u64,
    source: &KeptSource,
) -> Result<(), AllocError>
    ensures { OnOk result (out.new.items ≡ out.old.items
        ++ (word.now ++ source_words number source.now.name.items source.now.version.items)) }
{
    out.extend_from_slice(word)?;
    append_head(out, number, source)?;
    out.push(b'\n')?;
    Ok(())
}

/// Appends the number, the name and the version of a source package, and `source`, each after a
/// space.
pub(crate) fn append_head(
    out: &mut Vec<u8>,
    number: u64,
    source: &KeptSource,
) -> Result<(), AllocError>
    ensures { OnOk result (out.new.items ≡ out.old.items
        ++ source_head number source.now.name.items source.now.version.items) }
{
    let mut buffer = Buffer::new();
    append_spaced(out, buffer.format(number).as_bytes())?;
    append_spaced(out, &source.name)?;
    append_spaced(out, &source.version)?;
    append_spaced(out, b"source")
}
