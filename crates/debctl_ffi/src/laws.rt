//! Theorems about the tables of fields. Each is a function with an empty body.

ghost use Rattle.debctl_ffi.specs.FieldLaws.{SpansShowFields};

/// The parts of the tables that the spans name are exactly the fields, in their order.
pub fn spans_show_fields()
    ensures { SpansShowFields }
{}
