//! Finds the next refusal of a file.

ghost use Rattle.std.specs.Prelude.{◌≡◌, ℕ, List, None, IfErr};
ghost use Rattle.deb_base.specs.Bodies.{file_limit};
ghost use Rattle.deb_base.specs.Devices.{read_failures_after};
ghost use Rattle.deb_base.specs.declared.doc.Doc.{Doc};
ghost use Rattle.deb_base.specs.Reading.{IsMemoryOrRead, TakesNoMore};
ghost use Rattle.deb_control.specs.CheckedStates.{checked_state, doc_read};
ghost use Rattle.deb_control.specs.GivenRefusals.{FindsNext, GoesOn};
ghost use Rattle.deb_control.specs.SeenRefusals.{SeenRefusal};

use crate::checked::Checked;
use crate::summary::Summary;
use crate::visitor::NoVisitor;
use deb_base::{Fault, Refusal, Source};

/// Checks the next paragraphs, and counts those that pass, up to the first that is refused.
pub(crate) fn next_refusal<R: Source>(
    checked: &mut Checked,
    summary: &mut Summary,
    reader: &mut R,
) -> Result<Option<Refusal>, Fault>
    requires sound { (checked_state checked.old).fault ≡ None }
    ensures finds { (doc : Doc) (text : List ℕ) (done : List SeenRefusal)
        → GoesOn doc text checked.old summary.old (R.left reader.old) done
        → FindsNext doc text result checked.new summary.new (R.left reader.new) done }
    ensures reads_at_most { (doc : Doc) (text : List ℕ) (done : List SeenRefusal)
        → GoesOn doc text checked.old summary.old (R.left reader.old) done
        → TakesNoMore text file_limit (R.left reader.new) }
    ensures doc { doc_read checked.new ≡ doc_read checked.old }
    ensures fault { IfErr result IsMemoryOrRead }
    ensures counts_read_failure { R.failures reader.new ≡ read_failures_after
        (R.failures reader.old) result }
{
    for _ in 0..u64::MAX {
        match checked.advance(&mut NoVisitor, reader) {
            Ok(true) => summary.passed = summary.passed.saturating_add(1),
            Ok(false) => return Ok(None),
            Err(Fault::Refused(refusal)) => {
                summary.refused = summary.refused.saturating_add(1);
                return Ok(Some(refusal));
            }
            Err(Fault::Memory) => return Err(Fault::Memory),
            Err(Fault::Read) => return Err(Fault::Read),
            Err(Fault::Write) => unreachable!(),
        }
    }
    // No file has so many paragraphs.
    unreachable!()
}
