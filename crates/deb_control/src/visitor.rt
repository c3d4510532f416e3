//! A visitor of the values of a paragraph, called while the paragraph is checked.

ghost use Rattle.std.specs.Prelude.{◌++◌, ◌∷◌, List, [], OnOk};
ghost use Rattle.deb_control.specs.Visiting.{Visit, visit_of};

use deb_field::Value;
use deb_syntax::RawField;
use std::alloc::AllocError;

/// Visits the fields of a paragraph in file order, each with its value, while the paragraph is
/// checked.
pub trait FieldVisitor {
    /// These fields were visited since the start, with these values.
    ghost Visited: { Self → List Visit → Type 0 };

    /// Forgets what was visited. The fields of another paragraph follow.
    fn start(&mut self)
        ensures { Visited self.new [] };

    /// Visits one more field.
    ///
    /// # Errors
    ///
    /// Out of memory.
    fn visit(&mut self, field: &RawField<'_>, value: &Value<'_>) -> Result<(), AllocError>
        ensures { (visited : List Visit) → Visited self.old visited
            → OnOk result (Visited self.new (visited ++ visit_of field.now value.now ∷ [])) };
}

/// Keeps nothing of what it visits, and takes no memory.
#[derive(Clone, Copy)]
pub struct NoVisitor;

impl FieldVisitor for NoVisitor {
    ghost Visited = { λ visitor visited. Unit {0} };

    fn start(&mut self) {}

    fn visit(&mut self, _field: &RawField<'_>, _value: &Value<'_>) -> Result<(), AllocError> {
        Ok(())
    }
}
