//! Tables of the fields of a file.

ghost use Rattle.std.specs.Prelude.{◌≡◌, ◌++◌, ◌∷◌, [], List, IfOk, OnOk};
ghost use Rattle.deb_control.specs.CheckedStates.{passing_judged};
ghost use Rattle.deb_syntax.specs.Raw.{field_of};
ghost use Rattle.debctl_ffi.specs.Fields.{Numbered, numbered};

use deb_control::CheckedView;
use deb_syntax::RawField;
use std::alloc::{AllocError, Global};

/// Where a field of a file is in the tables of its names and values. A file is so short that each
/// number has 32 bits.
#[repr(C)]
#[derive(Clone, Copy, Debug, PartialEq, Eq)]
pub struct FieldSpan {
    /// The number of its paragraph, from 1.
    pub paragraph: u32,
    /// The number of its first line in the file, from 1.
    pub line: u32,
    /// The offset of its name in the names, and the length of that.
    pub name: u32,
    pub name_length: u32,
    /// The offset of its value in the values, and the length of that.
    pub value: u32,
    pub value_length: u32,
}

/// The fields of the paragraphs that were read.
#[derive(Drop)]
pub(crate) struct Tables {
    pub(crate) spans: Vec<FieldSpan>,
    pub(crate) names: Vec<u8>,
    pub(crate) values: Vec<u8>,
}

impl Tables {
    ghost use Rattle.debctl_ffi.specs.Tables.{HasTables};

    /// No fields.
    pub(crate) fn new(alloc: Global) -> Tables
        ensures { HasTables result [] }
    {
        Tables {
            spans: Vec::new(alloc),
            names: Vec::new(alloc),
            values: Vec::new(alloc),
        }
    }

    /// Removes all fields, and keeps the memory.
    pub(crate) fn clear(&mut self)
        ensures { HasTables self.new [] }
    {
        self.spans.clear();
        self.names.clear();
        self.values.clear();
    }

    /// Appends the fields of a paragraph of this number.
    pub(crate) fn push(
        &mut self,
        number: u64,
        paragraph: &CheckedView<'_>,
    ) -> Result<(), AllocError>
        ensures { (shown : List Numbered) → HasTables self.old shown
            → OnOk result (HasTables self.new
            (shown ++ numbered number (passing_judged paragraph.now).seen.fields)) }
    {
        for field in paragraph.fields() {
            self.push_field(number, &field)?;
        }
        Ok(())
    }

    /// Appends a field of a paragraph of this number.
    fn push_field(&mut self, number: u64, field: &RawField<'_>) -> Result<(), AllocError>
        ensures { (shown : List Numbered) → HasTables self.old shown
            → OnOk result (HasTables self.new (shown ++ (number, field_of field.now) ∷ [])) }
    {
        let paragraph = small(number)?;
        let line = small(field.line)?;
        let name = small(self.names.len() as u64)?;
        let name_length = small(field.name.len() as u64)?;
        let value = small(self.values.len() as u64)?;
        let value_length = small(field.body.len() as u64)?;
        self.spans.push(FieldSpan {
            paragraph,
            line,
            name,
            name_length,
            value,
            value_length,
        })?;
        append_text(&mut self.names, field.name)?;
        append_text(&mut self.values, field.body)?;
        Ok(())
    }
}

/// Appends a text, and a byte 0.
fn append_text(table: &mut Vec<u8>, text: &[u8]) -> Result<(), AllocError>
    ensures { OnOk result (table.new.items ≡ table.old.items ++ (text.now ++ 0 ∷ [])) }
{
    table.extend_from_slice(text)?;
    table.push(0)?;
    Ok(())
}

/// Returns a number that a span can hold, or an error if it can't hold it. A file is too short for
/// such a number.
fn small(number: u64) -> Result<u32, AllocError>
    ensures { IfOk result (λ small. small ≡ number) }
{
    u32::try_from(number).map_err(|_| AllocError)
}
