//! Writes the lines of a set of packages.

ghost use Rattle.std.specs.Prelude.{◌≡◌, ℕ, List, Some, IfOk, IfErr};
ghost use Rattle.deb_base.specs.Bodies.{file_limit};
ghost use Rattle.deb_base.specs.Devices.{read_failures_after, write_failures_after, ReadFaultIffFailed, WriteFaultIffFailed};
ghost use Rattle.deb_base.specs.Reading.{TakesNoMore};
ghost use Rattle.deb_control.specs.Calls.{IfRefused};
ghost use Rattle.deb_control.specs.Checking.{IsRefusalOfDocument};
ghost use Rattle.deb_control.specs.Documents.{refusal_of};
ghost use Rattle.deb_control.specs.FieldTexts.{HasTexts};
ghost use Rattle.deb_control.specs.ValueFiles.{ValueEntries};
ghost use Rattle.deb_field.specs.Values.{ValueMeaning};
ghost use Rattle.deb_index.specs.Members.{doc_of};
ghost use Rattle.deb_relation.specs.Environments.{environment_of};
ghost use Rattle.deb_unmet.specs.Own.{StopsOwn, WritesOwn};
ghost use Rattle.deb_unmet.specs.Paragraphs.{fields_in};
ghost use Rattle.deb_unmet.specs.Parts.{GivesValues, IsOther};
ghost use Rattle.deb_health.specs.Health.{asks_healthy};
ghost use Rattle.deb_health.specs.Kept.{HoldsMember};

use crate::kept::Kept;
use crate::lines::{Set, append_member};
use crate::state::state_text;
use deb_base::{Fault, Sink, Source};
use deb_control::{CheckedView, FieldTexts};
use deb_index::{Index, Members};
use deb_relation::Env;
use deb_unmet::{OwnLines, Strength, Summary, write_in_itself};
use std::alloc::{AllocError, Global};

/// Reads a set of packages once, an index or the installed packages of a status file, and writes a
/// line for each reason why it isn't healthy (Debian Policy 7.2 to 7.5).
///
/// - `unmet` or `unsure`: a group of Pre-Depends or Depends, with `Strength::Recommends` also of
///   Recommends, that no package of the set meets, or may not meet, as [`deb_unmet::unmet`] writes
///   it.
/// - `conflict`, or `unsure` if an architecture list may be read in two ways: a package of another
///   name that an alternative of Conflicts or Breaks excludes. Without a qualifier and with `any`
///   it speaks of packages of every architecture.
/// - `duplicate`: a later package of the same name that can't be installed together with this one.
/// - `state`: a package of a status file that is neither in the set nor removed (dpkg(1)), as one
///   that is installed in part, or without a version or an architecture.
///
/// The lines are in the order of the paragraphs. None is written before the whole file has been
/// read and has no refusal.
///
/// At most 4,295,032,831 bytes are read: a file of the most bytes, and one piece. Promises about
/// the text of the file hold for a reader whose bytes are known.
///
/// # Errors
///
/// - `Fault::Refused`: the file isn't accepted. This is its first refusal,
///   with a code from 1 to 21 and a line of the file, counted from 1. Nothing was written.
/// - `Fault::Read`: a read failed in this call. Nothing was written.
/// - `Fault::Memory`: a growth of memory was refused. Nothing was written, or the lines of the
///   first paragraphs of an accepted file.
/// - `Fault::Write`: a write failed in this call. A prefix of the lines of an accepted file was
///   written.
pub fn healthy<R: Source, W: Sink>(
    alloc: Global,
    environment: &Env,
    members: Members,
    strength: Strength,
    reader: &mut R,
    writer: &mut W,
) -> Result<Summary, Fault>
    ensures ok { (text : List ℕ) → R.left reader.old ≡ Some text
        → IfOk result (λ summary. WritesOwn
        (asks_healthy members strength (environment_of environment.now)) text summary
        (W.held writer.old) (W.held writer.new)) }
    ensures refused { (text : List ℕ) → R.left reader.old ≡ Some text
        → IfRefused result (λ refusal. refusal_of (doc_of members) text ≡ Some refusal) }
    ensures stopped { (text : List ℕ) → R.left reader.old ≡ Some text
        → IfErr result (λ fault. StopsOwn fault
        (asks_healthy members strength (environment_of environment.now)) text (W.held writer.old)
        (W.held writer.new)) }
    ensures reads_at_most { (text : List ℕ) → R.left reader.old ≡ Some text
        → TakesNoMore text file_limit (R.left reader.new) }

    // Whether or not the reader's bytes are known.
    ensures unwritten { IfRefused result (λ _. writer.new ≡ writer.old) }
    ensures refusal { IfRefused result IsRefusalOfDocument }
    ensures counts_read_failure { R.failures reader.new ≡ read_failures_after
        (R.failures reader.old) result }
    ensures counts_write_failure { W.failures writer.new ≡ write_failures_after
        (W.failures writer.old) result }
    ensures fault_iff_read_failed { ReadFaultIffFailed (R.failures reader.old)
        (R.failures reader.new) result }
    ensures fault_iff_write_failed { WriteFaultIffFailed (W.failures writer.old)
        (W.failures writer.new) result }
{
    let lines = SetLines {
        environment,
        members,
        strength,
    };
    let index = Index::new(alloc)?;
    write_in_itself(alloc, index, &lines, reader, writer)
}

/// What the packages of a set are asked.
#[derive(Clone, Copy)]
struct SetLines<'a> {
    environment: &'a Env,
    members: Members,
    strength: Strength,
}

impl OwnLines for SetLines<'_> {
    type Kept = Kept;

    ghost Holds = { HoldsMember };

    ghost asks = { λ lines. asks_healthy lines.members lines.strength
        (environment_of lines.environment.now) };

    fn members(&self) -> Members {
        self.members
    }

    fn over(&self, _alloc: Global, index: Index) -> Result<Index, AllocError> {
        Ok(index)
    }

    fn keep(
        alloc: Global,
        paragraph: &CheckedView<'_>,
        texts: &FieldTexts,
    ) -> Result<Kept, AllocError>
        ensures { (values : ValueEntries ValueMeaning) → HasTexts texts.now values
            → IfOk result (HoldsMember (fields_in paragraph.now) values) }
    {
        Kept::of(alloc, paragraph, texts)
    }

    fn keep_other(
        alloc: Global,
        paragraph: &CheckedView<'_>,
        texts: &FieldTexts,
    ) -> Result<Vec<u8>, AllocError>
        ensures { (values : ValueEntries ValueMeaning) → GivesValues paragraph.now texts.now values
            → IfOk result (λ text. IsOther (λ (lines : SetLines).
            asks_healthy lines.members lines.strength (environment_of lines.environment.now)) values
            text.items) }
    {
        state_text(alloc, paragraph, texts)
    }

    fn append(
        &self,
        alloc: Global,
        out: &mut Vec<u8>,
        index: &Index,
        number: u64,
        kept: &Kept,
    ) -> Result<(), AllocError> {
        let set = Set {
            index,
            environment: self.environment,
            strength: self.strength,
        };
        append_member(alloc, out, &set, number, kept)
    }
}
