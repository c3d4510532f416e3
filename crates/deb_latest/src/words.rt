//! Keeps the words of a paragraph that tell which package it is of, while it is checked.

ghost use Rattle.std.specs.Prelude.{◌≡◌, ◌==◌, ◌++◌, codes, cond, OnOk, Some};
ghost use Rattle.deb_base.specs.Kinds.{known_row};
ghost use Rattle.deb_base.specs.KnownFields.{row_of};
ghost use Rattle.deb_field.specs.ValueMeanings.{value_meaning};
ghost use Rattle.deb_latest.specs.Entries.{architecture_in, key_of_words, name_in};
ghost use Rattle.deb_latest.specs.Words.{KeepsWords, version_key_in};

use crate::request::By;
use deb_base::rows::{ARCHITECTURE, PACKAGE, VERSION};
use deb_control::FieldVisitor;
use deb_field::Value;
use deb_syntax::RawField;
use std::alloc::{AllocError, Global};

/// The words of a paragraph: the name of its package, its architecture, and the key of its version,
/// which sorts as the version does. Each is empty if the paragraph hasn't the field, or one of that
/// kind.
#[derive(Drop)]
pub(crate) struct Words {
    pub(crate) name: Vec<u8>,
    pub(crate) architecture: Vec<u8>,
    pub(crate) version: Vec<u8>,
}

impl Words {
    /// Nothing is kept. Takes no memory.
    pub(crate) fn new(alloc: Global) -> Words {
        Words {
            name: Vec::new(alloc),
            architecture: Vec::new(alloc),
            version: Vec::new(alloc),
        }
    }

    /// Puts what tells the package from others into `key`: its name, or its name, a space and its
    /// architecture.
    pub(crate) fn key_into(&self, by: By, key: &mut Vec<u8>) -> Result<(), AllocError>
        ensures { OnOk result (key.new.items
            ≡ key_of_words by self.now.name.items self.now.architecture.items) }
    {
        key.clear();
        key.extend_from_slice(&self.name)?;
        match by {
            By::Name => Ok(()),
            By::NameAndArchitecture => {
                key.push(b' ')?;
                key.extend_from_slice(&self.architecture)
            }
        }
    }
}

impl FieldVisitor for Words {
    ghost Visited = { KeepsWords };

    fn start(&mut self) {
        self.name.clear();
        self.architecture.clear();
        self.version.clear();
    }

    #[inline(always)]
    fn visit(&mut self, field: &RawField<'_>, value: &Value<'_>) -> Result<(), AllocError> {
        keep_name(field, value, &mut self.name)?;
        keep_architecture(field, value, &mut self.architecture)?;
        keep_version(field, value, &mut self.version)?;
        Ok(())
    }
}

/// Keeps the name of the package after one more field.
#[inline(always)]
#[tactic(auto, unfolding(deb_base::specs::Kinds::known_row))]
fn keep_name(field: &RawField<'_>, value: &Value<'_>, kept: &mut Vec<u8>) -> Result<(), AllocError>
    ensures { OnOk result (kept.new.items ≡ cond (row_of field.now.id
        == known_row (codes "Package")) (name_in (Some (value_meaning value.now)))
        kept.old.items) }
{
    if field.id.row() != PACKAGE {
        return Ok(());
    }
    kept.clear();
    match value {
        Value::Name(name) => kept.extend_from_slice(name.bytes()),
        _ => Ok(()),
    }
}

/// Keeps the architecture of the package after one more field.
#[inline(always)]
#[tactic(auto, unfolding(deb_base::specs::Kinds::known_row))]
fn keep_architecture(
    field: &RawField<'_>,
    value: &Value<'_>,
    kept: &mut Vec<u8>,
) -> Result<(), AllocError>
    ensures { OnOk result (kept.new.items ≡ cond (row_of field.now.id
        == known_row (codes "Architecture")) (architecture_in (Some (value_meaning value.now)))
        kept.old.items) }
{
    if field.id.row() != ARCHITECTURE {
        return Ok(());
    }
    kept.clear();
    match value {
        Value::Architecture(name) => kept.extend_from_slice(name.bytes()),
        _ => Ok(()),
    }
}

/// Keeps the key of the version after one more field.
#[inline(always)]
#[tactic(auto, unfolding(deb_base::specs::Kinds::known_row))]
fn keep_version(
    field: &RawField<'_>,
    value: &Value<'_>,
    kept: &mut Vec<u8>,
) -> Result<(), AllocError>
    ensures { OnOk result (kept.new.items ≡ cond (row_of field.now.id
        == known_row (codes "Version")) (version_key_in (Some (value_meaning value.now)))
        kept.old.items) }
{
    if field.id.row() != VERSION {
        return Ok(());
    }
    kept.clear();
    match value {
        Value::Version(version) => version.key_into(kept),
        _ => Ok(()),
    }
}
