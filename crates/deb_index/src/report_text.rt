//! Writes a report as text.

ghost use Rattle.std.specs.Prelude.{◌≡◌, IfErr};
ghost use Rattle.std.specs.List.{concat, flat_map};
ghost use Rattle.deb_base.specs.Devices.{write_failures_after, Puts, WriteFaultIffFailed};
ghost use Rattle.deb_index.specs.ReportText.{answer_text, end_pieces, group_line, package_line, package_pieces, report_text, report_text_by, verdict_word, version_shown, with_files};
ghost use Rattle.deb_index.specs.Reported.{answer_of, answers_left, found_left, found_of, report_of};
ghost use Rattle.deb_index.specs.ShownVersions.{counts_reported, shown_by, spellings_reported};

use crate::answer::{Answer, Answers, Found, FoundPackages};
use crate::report::Report;
use crate::shown::Versions;
use crate::verdict::Verdict;
use deb_base::{Fault, Sink, VersionText, put_all, put_pieces};
use itoa::Buffer;

impl Report<'_> {
    /// Writes the report: for each group a line with its verdict and its canonical text, such as
    /// `met aa | bb`, `unmet cc` or `ignored dd [i386]`. After the line of a met group there is a
    /// line for each package that meets it, such as ` 2 aa 1.0 all`: its number, name, canonical
    /// version and architecture. Takes no memory.
    ///
    /// # Errors
    ///
    /// `Fault::Write` only: a write failed in this call, and a prefix of the report was written
    /// before it.
    pub fn write<W: Sink>(&self, out: &mut W) -> Result<(), Fault>
        ensures written { Puts (W.held out.old) (W.held out.new) result
            (report_text (report_of self.now)) }
        ensures fault { IfErr result (λ fault. fault ≡ Fault.Write) }
        ensures counts_failure { W.failures out.new ≡ write_failures_after (W.failures out.old)
            result }
        ensures fault_iff_write_failed { WriteFaultIffFailed (W.failures out.old)
            (W.failures out.new) result }
    {
        self.write_with(VersionText::Canonical, out)
    }

    /// Writes the report as [`Report::write`] does, with this text of each version.
    ///
    /// # Errors
    ///
    /// `Fault::Write` only: a write failed in this call, and a prefix of the report was written
    /// before it.
    pub fn write_with<W: Sink>(&self, versions: VersionText, out: &mut W) -> Result<(), Fault>
        ensures written { Puts (W.held out.old) (W.held out.new) result
            (report_text_by (version_shown versions (spellings_reported self.now))
            (report_of self.now)) }
        ensures fault { IfErr result (λ fault. fault ≡ Fault.Write) }
        ensures counts_failure { W.failures out.new ≡ write_failures_after (W.failures out.old)
            result }
        ensures fault_iff_write_failed { WriteFaultIffFailed (W.failures out.old)
            (W.failures out.new) result }
    {
        let versions = Versions {
            index: self.index,
            chosen: versions,
            files: false,
        };
        write_answers(self.answers(), versions, out)
    }

    /// Writes the report as [`Report::write_with`] does. If the index has more than one file, the
    /// line of a package ends with its file, such as ` 2 aa 1.0 all @1`: 1 is the file that was
    /// read first.
    ///
    /// # Errors
    ///
    /// `Fault::Write` only: a write failed in this call, and a prefix of the report was written
    /// before it.
    pub fn write_with_files<W: Sink>(&self, versions: VersionText, out: &mut W) -> Result<(), Fault>
        ensures written { Puts (W.held out.old) (W.held out.new) result
            (report_text_by (with_files (counts_reported self.now)
            (version_shown versions (spellings_reported self.now))) (report_of self.now)) }
        ensures fault { IfErr result (λ fault. fault ≡ Fault.Write) }
        ensures counts_failure { W.failures out.new ≡ write_failures_after (W.failures out.old)
            result }
        ensures fault_iff_write_failed { WriteFaultIffFailed (W.failures out.old)
            (W.failures out.new) result }
    {
        let versions = Versions {
            index: self.index,
            chosen: versions,
            files: true,
        };
        write_answers(self.answers(), versions, out)
    }
}

fn write_answers<W: Sink>(
    answers: Answers<'_>,
    versions: Versions<'_>,
    out: &mut W,
) -> Result<(), Fault>
    ensures written { Puts (W.held out.old) (W.held out.new) result
        (report_text_by (shown_by versions.entry) (answers_left answers.entry)) }
    ensures fault { IfErr result (λ fault. fault ≡ Fault.Write) }
    ensures counts_failure { W.failures out.new ≡ write_failures_after (W.failures out.old) result }
{
    for answer in answers {
        write_answer(&answer, versions, out)?;
    }
    Ok(())
}

/// Writes the line of a group, and those of the packages that meet it.
#[tactic(auto, using(deb_base::proofs::Writes::puts))]
pub(crate) fn write_answer<W: Sink>(
    answer: &Answer<'_>,
    versions: Versions<'_>,
    out: &mut W,
) -> Result<(), Fault>
    ensures written { Puts (W.held out.old) (W.held out.new) result
        (answer_text (shown_by versions.entry) (answer_of answer.now)) }
    ensures fault { IfErr result (λ fault. fault ≡ Fault.Write) }
    ensures counts_failure { W.failures out.new ≡ write_failures_after (W.failures out.old) result }
{
    write_group(answer, out)?;
    write_packages(answer.packages(), versions, out)
}

/// Writes the line of a group.
fn write_group<W: Sink>(answer: &Answer<'_>, out: &mut W) -> Result<(), Fault>
    ensures written { Puts (W.held out.old) (W.held out.new) result
        (group_line (answer_of answer.now)) }
    ensures fault { IfErr result (λ fault. fault ≡ Fault.Write) }
    ensures counts_failure { W.failures out.new ≡ write_failures_after (W.failures out.old) result }
{
    put_pieces(
        out,
        &[verdict_word(answer.verdict()), b" ", answer.text(), b"\n"],
    )
}

fn write_packages<W: Sink>(
    packages: FoundPackages<'_>,
    versions: Versions<'_>,
    out: &mut W,
) -> Result<(), Fault>
    ensures written { Puts (W.held out.old) (W.held out.new) result
        (flat_map (package_line (shown_by versions.entry)) (found_left packages.entry)) }
    ensures fault { IfErr result (λ fault. fault ≡ Fault.Write) }
    ensures counts_failure { W.failures out.new ≡ write_failures_after (W.failures out.old) result }
{
    for found in packages {
        write_package(&found, versions, out)?;
    }
    Ok(())
}

/// Writes the line of a package.
#[tactic(auto, using(deb_base::proofs::Writes::puts))]
fn write_package<'a, W: Sink>(
    found: &Found<'a>,
    versions: Versions<'a>,
    out: &mut W,
) -> Result<(), Fault>
    ensures written { Puts (W.held out.old) (W.held out.new) result
        (package_line (shown_by versions.entry) (found_of found.now)) }
    ensures fault { IfErr result (λ fault. fault ≡ Fault.Write) }
    ensures counts_failure { W.failures out.new ≡ write_failures_after (W.failures out.old) result }
{
    write_named(found, versions, out)?;
    write_end(versions.file(found), out)
}

/// Writes the line of a package up to its architecture.
fn write_named<'a, W: Sink>(
    found: &Found<'a>,
    versions: Versions<'a>,
    out: &mut W,
) -> Result<(), Fault>
    ensures written { Puts (W.held out.old) (W.held out.new) result
        (concat (package_pieces (shown_by versions.entry) (found_of found.now))) }
    ensures fault { IfErr result (λ fault. fault ≡ Fault.Write) }
    ensures counts_failure { W.failures out.new ≡ write_failures_after (W.failures out.old) result }
{
    let mut number = Buffer::new();
    let package = found.package;
    put_pieces(
        out,
        &[
            b" ",
            number.format(found.number).as_bytes(),
            b" ",
            package.name(),
            b" ",
            versions.of(found),
            b" ",
            package.architecture(),
        ],
    )
}

/// Writes the end of the line of a package, which names this file.
fn write_end<W: Sink>(file: Option<usize>, out: &mut W) -> Result<(), Fault>
    ensures written { Puts (W.held out.old) (W.held out.new) result (concat (end_pieces file)) }
    ensures fault { IfErr result (λ fault. fault ≡ Fault.Write) }
    ensures counts_failure { W.failures out.new ≡ write_failures_after (W.failures out.old) result }
{
    let Some(place) = file else {
        return put_all(out, b"\n");
    };
    let mut buffer = Buffer::new();
    put_pieces(out, &[b" @", buffer.format(place).as_bytes(), b"\n"])
}

fn verdict_word<'a>(verdict: Verdict) -> &'a [u8]
    ensures { result.now ≡ verdict_word verdict }
{
    match verdict {
        Verdict::Ignored => b"ignored",
        Verdict::Met => b"met",
        Verdict::Unmet => b"unmet",
    }
}
