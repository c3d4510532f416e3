//! Writes the lines of an index in itself.

ghost use Rattle.std.specs.Prelude.{◌≡◌, ℕ, List, [], Some, IfOk, IfErr};
ghost use Rattle.deb_base.specs.Bodies.{file_limit};
ghost use Rattle.deb_base.specs.Devices.{read_failures_after, write_failures_after, ReadFaultIffFailed, WriteFaultIffFailed};
ghost use Rattle.deb_base.specs.Reading.{TakesNoMore};
ghost use Rattle.deb_control.specs.Calls.{IfRefused};
ghost use Rattle.deb_control.specs.Checking.{IsRefusalOfDocument};
ghost use Rattle.deb_control.specs.Documents.{refusal_of};
ghost use Rattle.deb_control.specs.FieldTexts.{HasTexts};
ghost use Rattle.deb_control.specs.ValueFiles.{ValueEntries};
ghost use Rattle.deb_field.specs.Values.{ValueMeaning};
ghost use Rattle.deb_index.specs.Indexes.{packages_of};
ghost use Rattle.deb_index.specs.Members.{doc_of};
ghost use Rattle.deb_index.specs.Without.{without};
ghost use Rattle.deb_relation.specs.Environments.{environment_of};
ghost use Rattle.deb_relation.specs.Views.{names_of};
ghost use Rattle.deb_unmet.specs.KeptParagraphs.{HoldsTexts};
ghost use Rattle.deb_unmet.specs.Own.{StopsOwn, WritesOwn, own_asked, own_scope};
ghost use Rattle.deb_unmet.specs.Paragraphs.{fields_in};
ghost use Rattle.deb_unmet.specs.Parts.{GivesValues, IsOther};

use crate::asked::{Asked, Strength};
use crate::asking::Summary;
use crate::in_itself::write_in_itself;
use crate::kept::KeptParagraph;
use crate::lines::append_lines;
use crate::own_lines::OwnLines;
use crate::paragraph::Paragraph;
use crate::question::Question;
use deb_base::{Fault, Sink, Source, VersionText};
use deb_control::{CheckedView, FieldTexts};
use deb_index::{Index, Members};
use deb_relation::Env;
use std::alloc::{AllocError, Global};

/// What an index in itself is asked.
#[derive(Clone, Copy, Debug, PartialEq, Eq)]
pub struct OwnRequest {
    /// Which paragraphs of the file are its packages.
    pub members: Members,
    /// Which relations are asked.
    pub strength: Strength,
    /// Which text of its version the lines of a package have.
    pub versions: VersionText,
}

/// What the relations of a file are asked over, besides its own packages and those of the files
/// before it.
#[derive(Clone, Copy)]
pub struct OwnQuestion<'a> {
    /// The environment of the relations.
    pub environment: &'a Env,
    /// An old index, if there is one: a group that it doesn't meet in every reading has no line.
    pub unless: Option<&'a Index>,
    /// The names of the packages that are left out: they meet nothing, and their own relations
    /// aren't asked.
    pub without: &'a [&'a [u8]],
}

/// Reads an index of packages once, or a status file as one of its installed packages, and writes a
/// line for each group of its own relations that none of its packages meets, or may not meet, and
/// none of the packages of `index` (Debian Policy 7.1 and 7.2). `index` has those of the files
/// before it ([`Index::new`]: there is none).
///
/// For an index the lines are those of [`crate::unmet`] for the same file. None is written before
/// the whole file has been read and has no refusal: of each package its name, its version, its
/// architecture and the relations that are asked are kept until then.
///
/// At most 4,295,032,831 bytes are read: a file of the most bytes, and one piece. Promises about
/// the text of the file hold for a reader whose bytes are known.
///
/// # Errors
///
/// - `Fault::Refused`: the file isn't accepted. This is its first refusal, with a code from 1 to 21
///   and a line of the file, counted from 1. Nothing was written.
/// - `Fault::Read`: a read failed in this call. Nothing was written.
/// - `Fault::Memory`: a growth of memory was refused. Nothing was written, or the lines of the
///   first paragraphs of an accepted file.
/// - `Fault::Write`: a write failed in this call. A prefix of the lines of an accepted file was
///   written.
pub fn unmet_in_itself<R: Source, W: Sink>(
    alloc: Global,
    index: Index,
    question: OwnQuestion<'_>,
    request: OwnRequest,
    reader: &mut R,
    writer: &mut W,
) -> Result<Summary, Fault>
    ensures ok { (text : List ℕ) → R.left reader.old ≡ Some text
        → IfOk result (λ summary. WritesOwn
        (own_asked request (environment_of question.entry.environment.now)
        (own_scope (packages_of index) question.entry)) text summary (W.held writer.old)
        (W.held writer.new)) }
    ensures refused { (text : List ℕ) → R.left reader.old ≡ Some text
        → IfRefused result (λ refusal. refusal_of (doc_of request.members) text ≡ Some refusal) }
    ensures stopped { (text : List ℕ) → R.left reader.old ≡ Some text
        → IfErr result (λ fault. StopsOwn fault
        (own_asked request (environment_of question.entry.environment.now)
        (own_scope (packages_of index) question.entry)) text (W.held writer.old)
        (W.held writer.new)) }
    ensures reads_at_most { (text : List ℕ) → R.left reader.old ≡ Some text
        → TakesNoMore text file_limit (R.left reader.new) }

    // Whether or not the reader's bytes are known.
    ensures unwritten { IfRefused result (λ _. writer.new ≡ writer.old) }
    ensures refusal { IfRefused result IsRefusalOfDocument }
    ensures counts_read_failure { R.failures reader.new ≡ read_failures_after
        (R.failures reader.old) result }
    ensures counts_write_failure { W.failures writer.new ≡ write_failures_after
        (W.failures writer.old) result }
    ensures fault_iff_read_failed { ReadFaultIffFailed (R.failures reader.old)
        (R.failures reader.new) result }
    ensures fault_iff_write_failed { WriteFaultIffFailed (W.failures writer.old)
        (W.failures writer.new) result }
{
    let lines = UnmetLines { question, request };
    write_in_itself(alloc, index, &lines, reader, writer)
}

/// The lines of groups, as `unmet` writes them.
#[derive(Clone, Copy)]
struct UnmetLines<'a> {
    question: OwnQuestion<'a>,
    request: OwnRequest,
}

impl OwnLines for UnmetLines<'_> {
    type Kept = KeptParagraph;

    ghost Holds = { HoldsTexts };

    ghost asks = { λ lines. own_asked lines.request
        (environment_of lines.question.environment.now) (own_scope [] lines.question) };

    fn members(&self) -> Members {
        self.request.members
    }

    fn over(&self, alloc: Global, index: Index) -> Result<Index, AllocError> {
        leave_out(alloc, index, self.question.without)
    }

    fn keep(
        alloc: Global,
        paragraph: &CheckedView<'_>,
        texts: &FieldTexts,
    ) -> Result<KeptParagraph, AllocError>
        ensures { (values : ValueEntries ValueMeaning) → HasTexts texts.now values
            → IfOk result (HoldsTexts (fields_in paragraph.now) values) }
    {
        KeptParagraph::of(alloc, paragraph, texts)
    }

    fn keep_other(
        alloc: Global,
        paragraph: &CheckedView<'_>,
        texts: &FieldTexts,
    ) -> Result<Vec<u8>, AllocError>
        ensures { (values : ValueEntries ValueMeaning) → GivesValues paragraph.now texts.now values
            → IfOk result (λ text. IsOther (λ (lines : UnmetLines).
            own_asked lines.request (environment_of lines.question.environment.now)
            (own_scope [] lines.question)) values text.items) }
    {
        Ok(Vec::new(alloc))
    }

    fn append(
        &self,
        alloc: Global,
        out: &mut Vec<u8>,
        index: &Index,
        number: u64,
        kept: &KeptParagraph,
    ) -> Result<(), AllocError> {
        let question = Question {
            index,
            unless: self.question.unless,
            without: self.question.without,
            environment: self.question.environment,
        };
        let paragraph = Paragraph {
            asked: Asked::Packages(self.request.strength),
            number,
            texts: &kept.line_texts(self.request.versions),
        };
        append_lines(alloc, out, &question, &paragraph)
    }
}

/// Returns an index without the packages of these names. Mostly there are none.
fn leave_out(alloc: Global, index: Index, names: &[&[u8]]) -> Result<Index, AllocError>
    ensures { IfOk result (λ rest. packages_of rest
        ≡ without (names_of names.now) (packages_of index)) }
{
    if names.is_empty() {
        return Ok(index);
    }
    index.without(alloc, names)
}
