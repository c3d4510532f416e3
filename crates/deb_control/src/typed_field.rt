//! Fields with their values.

use deb_field::Value;
use deb_syntax::RawField;

/// A field of a paragraph, with its value.
#[derive(Debug, Drop)]
pub struct TypedField<'a> {
    /// The field as it is in the file.
    pub raw: RawField<'a>,
    /// The value that its body spells.
    pub value: Value<'a>,
}
