//! Why a text is no condition.

ghost use Rattle.std.specs.Prelude.{◌≡◌};
ghost use Rattle.deb_select.specs.Reasons.{reason_name, reason_text};

use deb_base::Code;

/// Why a text is no condition.
#[derive(Clone, Copy, Debug, PartialEq, Eq)]
pub enum Reason {
    /// The name of a field was expected.
    NameExpected,
    /// The text before the operator isn't the name of a field (Debian Policy 5.1).
    NameBad,
    /// No operator follows the name.
    OperatorBad,
    /// The values of the field have no order.
    NoOrder,
    /// The values of the field have no names.
    NoNames,
    /// A value was expected.
    ValueExpected,
    /// The value can't be that of the field, which has this refusal.
    ValueBad(Code),
    /// The text after `names` can't be a name in the field's values.
    NoName,
}

impl Reason {
    /// Returns the name of the reason, as it is printed.
    #[tactic(auto, unfolding(crate::specs::Reasons::reason_name))]
    pub fn name(self) -> &'static str
        ensures { result.now ≡ reason_name self }
    {
        match self {
            Reason::NameExpected => "NameExpected",
            Reason::NameBad => "NameBad",
            Reason::OperatorBad => "OperatorBad",
            Reason::NoOrder => "NoOrder",
            Reason::NoNames => "NoNames",
            Reason::ValueExpected => "ValueExpected",
            Reason::ValueBad(_) => "ValueBad",
            Reason::NoName => "NoName",
        }
    }

    /// Returns the reason in a sentence.
    #[tactic(auto, unfolding(crate::specs::Reasons::reason_text))]
    pub fn text(self) -> &'static str
        ensures { result.now ≡ reason_text self }
    {
        match self {
            Reason::NameExpected => "A field's name is expected.",
            Reason::NameBad => "This can't be a field's name.",
            Reason::OperatorBad => "The operator must be =, !=, <<, <=, >=, >>, ~ or names.",
            Reason::NoOrder => "Only versions and numbers have an order.",
            Reason::NoNames => "Values of this field have no names.",
            Reason::ValueExpected => "A value is expected.",
            Reason::ValueBad(_) => "The field can't have this value.",
            Reason::NoName => "This can't be a name here.",
        }
    }
}

/// Why a text isn't read as a condition.
#[derive(Clone, Copy, Debug, PartialEq, Eq)]
pub enum ConditionFault {
    /// The text is no condition, for this reason at this offset in bytes.
    Bad {
        /// The reason.
        reason: Reason,
        /// The offset in the text.
        at: usize,
    },
    /// A growth of memory was refused.
    Memory,
}
