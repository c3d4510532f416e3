//! How the value of a field compares with another.

ghost use Rattle.std.specs.Prelude.{◌≡◌};
ghost use Rattle.deb_select.specs.Conditions.{comparison_holds};

use std::cmp::Ordering;

/// How the value of a field compares with the value that is asked for.
#[derive(Clone, Copy, Debug, PartialEq, Eq)]
pub enum Comparison {
    /// `=`
    Same,
    /// `!=`
    Different,
    /// `<<`
    Earlier,
    /// `<=`
    EarlierEqual,
    /// `>=`
    LaterEqual,
    /// `>>`
    Later,
}

impl Comparison {
    /// Returns whether the comparison holds of values in this order.
    pub fn holds(self, order: Ordering) -> bool
        ensures { result ≡ comparison_holds self order }
    {
        match self {
            Comparison::Same => order.is_eq(),
            Comparison::Different => order.is_ne(),
            Comparison::Earlier => order.is_lt(),
            Comparison::EarlierEqual => order.is_le(),
            Comparison::LaterEqual => order.is_ge(),
            Comparison::Later => order.is_gt(),
        }
    }
}
