//! The canonical text of the field Source.

ghost use Rattle.std.specs.Prelude.{◌≡◌, ◌++◌, OnOk, OnErr};
ghost use Rattle.deb_version.specs.Canonical.{Extends};
ghost use Rattle.deb_field.specs.Sources.{SourceMeaning, SpellsSource, source_text};
ghost use Rattle.deb_field.specs.SourceNames.{source_meaning};

use crate::canon::Canon;
use crate::source::SourceName;
use std::alloc::AllocError;

impl Canon for SourceName<'_> {
    ghost use Rattle.deb_field.specs.SourceLaws.{source_law};
    ghost use Rattle.deb_field.specs.SourceSpelled.{source_spelled};

    ghost Kinds = { Unit {0} };

    ghost Meaning = { SourceMeaning };

    ghost kind = { λ _. tt };

    ghost meaning = { source_meaning };

    ghost Spells = { λ _. SpellsSource };

    ghost text_of = { source_text };

    ghost law = { λ _. source_law };

    ghost spelled = { source_spelled };

    fn canon_len(&self) -> u64 {
        let name = self.name().len() as u64;
        match self.version() {
            Some(version) => name + version.canon_len() + 3,
            None => name,
        }
    }

    fn canon_into(&self, out: &mut Vec<u8>) -> Result<(), AllocError> {
        let len = out.len();
        let written = append(self, out);
        if written.is_err() {
            out.truncate(len);
        }
        written
    }
}

/// Appends the canonical text, or a part of it after out of memory.
fn append(source: &SourceName<'_>, out: &mut Vec<u8>) -> Result<(), AllocError>
    ensures ok { OnOk result (out.new.items
        ≡ out.old.items ++ source_text (source_meaning source.now)) }
    ensures begun { OnErr result (Extends out.old.items out.new.items) }
{
    out.extend_from_slice(source.name())?;
    if let Some(version) = source.version() {
        out.extend_from_slice(b" (")?;
        version.canon_into(out)?;
        out.push(b')')?;
    }
    Ok(())
}
