//! Values of all kinds: from a body to a value.

use crate::flag::{Flag, MultiArch};
use crate::folded::{ArchitectureWords, Folded};
use crate::names::{ArchitectureName, PackageName};
use crate::number::Number;
use crate::relation::RelationField;
use crate::source::SourceName;
use crate::text::{Line, Text};
use crate::version::parse_version;
use deb_base::{Code, Doc, Kind, kind_of};
use deb_version::Version;
use std::alloc::Global;

/// The value of a field: one variant for each kind.
#[derive(Debug, Drop)]
pub enum Value<'a> {
    /// The value of Package.
    Name(PackageName<'a>),
    /// The value of Source.
    Source(SourceName<'a>),
    /// The value of Version.
    Version(Version<'a>),
    /// The value of Architecture of a binary package.
    Architecture(ArchitectureName<'a>),
    /// The value of Architecture of a source package.
    ArchitectureWords(ArchitectureWords<'a>),
    /// The value of Essential.
    Flag(Flag),
    /// The value of Multi-Arch.
    MultiArch(MultiArch),
    /// The value of Installed-Size or Size.
    Number(Number<'a>),
    /// The value of Maintainer or another field of one line.
    Line(Line<'a>),
    /// The value of Binary or Uploaders.
    Folded(Folded<'a>),
    /// The value of a relationship field.
    Relation(RelationField<'a>),
    /// The value of any other field.
    Text(Text<'a>),
}

/// Why a body has no value.
#[derive(Clone, Copy, Debug, PartialEq, Eq)]
pub enum ValueFault {
    /// The body is refused, with a code of at least `NotOneLine` (13).
    Refused(Code),
    /// A growth of memory was refused. Only relations take memory.
    Memory,
}

impl From<Code> for ValueFault {
    ghost use Rattle.std.specs.Prelude.{◌≡◌};
    ghost use Rattle.deb_field.specs.declared.value.ValueFault.TheVariants.{Refused};

    ghost from_gives = { λ code fault. fault ≡ Refused code };

    fn from(code: Code) -> ValueFault {
        ValueFault::Refused(code)
    }
}

impl<'a> Value<'a> {
    ghost use Rattle.std.specs.Prelude.{◌≡◌, IfOk, IfErr};
    ghost use Rattle.deb_base.specs.Bodies.{IsBody};
    ghost use Rattle.deb_field.specs.Faults.{IsFaultOf, IsRead};
    ghost use Rattle.deb_base.specs.Kinds.{kind_of};
    ghost use Rattle.deb_field.specs.LineBegins.{begins_with_newline};
    ghost use Rattle.deb_field.specs.ValueMeanings.{kind_of_value, value_meaning};
    ghost use Rattle.deb_field.specs.Values.{ValueMeaning, SpellsKind, SpellsValue, value_text};

    /// Parses a body as the value of the field with this name, in a document of this kind.
    ///
    /// The value borrows the body. Only a relation takes memory.
    ///
    /// # Errors
    ///
    /// The refusal of the body: `NotOneLine` for a body of more than one line if the field allows
    /// only one, else the code of the kind. In Source a bad name comes before a bad version; in
    /// relationship fields a bad relation comes before alternatives, and these before operators. Or
    /// out of memory, in relationship fields.
    pub fn parse(
        alloc: Global,
        doc: Doc,
        name: &[u8],
        body: &'a [u8],
    ) -> Result<Value<'a>, ValueFault>
        requires { IsBody body.now }
        ensures ok { IfOk result (λ v. SpellsValue doc name.now body.now (value_meaning v)) }
        ensures kind { IfOk result (λ v. kind_of_value v ≡ kind_of doc name.now) }
        ensures accepted { (m : ValueMeaning) → SpellsValue doc name.now body.now m
            → IsRead (kind_of doc name.now) result m }
        ensures refused { IfErr result (IsFaultOf (kind_of doc name.now) body.now) }
    {
        Value::of_kind(alloc, kind_of(doc, name), body)
    }

    /// Parses a body as a value of a kind.
    ///
    /// The value borrows the body. Only a relation takes memory.
    ///
    /// # Errors
    ///
    /// Those of `parse`.
    pub fn of_kind(alloc: Global, kind: Kind, body: &'a [u8]) -> Result<Value<'a>, ValueFault>
        ensures ok { IfOk result (λ value. SpellsKind kind body.now (value_meaning value)) }
        ensures kind { IfOk result (λ value. kind_of_value value ≡ kind) }
        ensures refused { IfErr result (IsFaultOf kind body.now) }
    {
        match kind {
            Kind::Name => Ok(Value::Name(PackageName::parse(body)?)),
            Kind::Source => Ok(Value::Source(SourceName::parse(body)?)),
            Kind::Version => Ok(Value::Version(parse_version(body)?)),
            Kind::Architecture => Ok(Value::Architecture(ArchitectureName::parse(body)?)),
            Kind::ArchitectureWords => Ok(Value::ArchitectureWords(ArchitectureWords::parse(
                body,
            )?)),
            Kind::Flag => Ok(Value::Flag(Flag::parse(body)?)),
            Kind::MultiArch => Ok(Value::MultiArch(MultiArch::parse(body)?)),
            Kind::Number => Ok(Value::Number(Number::parse(body)?)),
            Kind::Line => Ok(Value::Line(Line::parse(body)?)),
            Kind::Folded => Ok(Value::Folded(Folded::new(body))),
            Kind::Relation(sort) => Ok(Value::Relation(RelationField::parse(alloc, sort, body)?)),
            Kind::Text => Ok(Value::Text(Text::new(body))),
        }
    }

    /// Returns whether the canonical text begins with a newline, so that it is on the lines below
    /// the field's name. Only a text can.
    #[inline(always)]
    pub fn begins_with_newline(&self) -> bool
        ensures { result ≡ begins_with_newline (value_text (value_meaning self.now)) }
    {
        match self {
            Value::Text(text) => text.begins_with_newline(),
            _ => false,
        }
    }
}
