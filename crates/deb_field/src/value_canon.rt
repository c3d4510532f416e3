//! The canonical text of values of all kinds.

ghost use Rattle.deb_field.specs.Values.{ValueMeaning, value_text, SpellsKind};
ghost use Rattle.deb_field.specs.ValueLaws.{kind_law};
ghost use Rattle.deb_field.specs.ValueMeanings.{kind_of_value, value_meaning, value_spelled};
ghost use Rattle.deb_base.specs.declared.kind.Kind.{Kind as FieldKind};

use crate::canon::Canon;
use crate::value::Value;
use std::alloc::AllocError;

impl Canon for Value<'_> {
    ghost Kinds = { FieldKind };

    ghost Meaning = { ValueMeaning };

    ghost kind = { kind_of_value };

    ghost meaning = { value_meaning };

    ghost Spells = { SpellsKind };

    ghost text_of = { value_text };

    ghost law = { kind_law };

    ghost spelled = { value_spelled };

    #[inline(always)]
    fn canon_len(&self) -> u64 {
        match self {
            Value::Name(name) => name.canon_len(),
            Value::Source(source) => source.canon_len(),
            Value::Version(version) => version.canon_len(),
            Value::Architecture(name) => name.canon_len(),
            Value::ArchitectureWords(names) => names.canon_len(),
            Value::Flag(flag) => flag.canon_len(),
            Value::MultiArch(word) => word.canon_len(),
            Value::Number(number) => number.canon_len(),
            Value::Line(line) => line.canon_len(),
            Value::Folded(folded) => folded.canon_len(),
            Value::Relation(field) => field.canon_len(),
            Value::Text(text) => text.canon_len(),
        }
    }

    #[inline(always)]
    fn canon_into(&self, out: &mut Vec<u8>) -> Result<(), AllocError> {
        match self {
            Value::Name(name) => name.canon_into(out),
            Value::Source(source) => source.canon_into(out),
            Value::Version(version) => version.canon_into(out),
            Value::Architecture(name) => name.canon_into(out),
            Value::ArchitectureWords(names) => names.canon_into(out),
            Value::Flag(flag) => flag.canon_into(out),
            Value::MultiArch(word) => word.canon_into(out),
            Value::Number(number) => number.canon_into(out),
            Value::Line(line) => line.canon_into(out),
            Value::Folded(folded) => folded.canon_into(out),
            Value::Relation(field) => field.canon_into(out),
            Value::Text(text) => text.canon_into(out),
        }
    }
}
