//! Reads the source packages of a file.

ghost use Rattle.std.specs.Prelude.{◌≡◌, ℕ, List, Some, IfOk, IfErr};
ghost use Rattle.deb_base.specs.Bodies.{file_limit};
ghost use Rattle.deb_base.specs.Devices.{read_failures_after, ReadFaultIffFailed};
ghost use Rattle.deb_base.specs.Faults.{IsReadersFault};
ghost use Rattle.deb_base.specs.Reading.{TakesNoMore};
ghost use Rattle.deb_control.specs.Calls.{IfRefused};
ghost use Rattle.deb_control.specs.Checking.{IsRefusalOfDocument};
ghost use Rattle.deb_control.specs.Documents.{refusal_of};
ghost use Rattle.deb_install.specs.KeptSources.{HoldsSources};
ghost use Rattle.deb_install.specs.SourceKinds.{doc_of};

use crate::kept_source::KeptSource;
use crate::source_kind::SourceKind;
use deb_base::{Fault, Source};
use deb_control::{Checked, FieldTexts};
use std::alloc::Global;

/// Reads a file of source packages, and keeps of each what decides whether it can be built.
pub(crate) fn read_sources<R: Source>(
    alloc: Global,
    kind: SourceKind,
    reader: &mut R,
) -> Result<Vec<KeptSource>, Fault>
    ensures ok { (text : List ℕ) → R.left reader.old ≡ Some text
        → IfOk result (λ kept. HoldsSources kind text kept.items) }
    ensures refused { (text : List ℕ) → R.left reader.old ≡ Some text
        → IfRefused result (λ refusal. refusal_of (doc_of kind) text ≡ Some refusal) }
    ensures reads_at_most { (text : List ℕ) → R.left reader.old ≡ Some text
        → TakesNoMore text file_limit (R.left reader.new) }

    // Whether or not the reader's bytes are known.
    ensures fault { IfErr result (λ fault. IsReadersFault fault IsRefusalOfDocument) }
    ensures counts_read_failure { R.failures reader.new ≡ read_failures_after
        (R.failures reader.old) result }
    ensures fault_iff_read_failed { ReadFaultIffFailed (R.failures reader.old)
        (R.failures reader.new) result }
{
    let mut checked = Checked::new(alloc, kind.doc());
    let mut texts = FieldTexts::new(alloc);
    let mut sources = Vec::new(alloc);
    for count in 0..u64::MAX {
        if !checked.advance(&mut texts, reader)? {
            return Ok(sources);
        }
        sources.push(KeptSource::of(alloc, kind, &texts)?)?;
    }
    // No file has so many paragraphs.
    unreachable!()
}
