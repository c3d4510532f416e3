//! Selects paragraphs of control data by what they mean (Debian Policy 5.1 and 5.6).
#![tactic(auto)]

mod accepting;
mod cells;
mod comparison;
mod condition;
mod explaining;
mod fields;
mod form;
mod json_line;
mod json_relation;
pub mod laws;
mod parts;
mod reason;
mod selection;
mod shown_value;
mod test;
mod writing;

pub use accepting::Accepted;
pub use comparison::Comparison;
pub use condition::Condition;
pub use explaining::explain_condition;
pub use form::Form;
pub use reason::{ConditionFault, Reason};
pub use selection::Selection;
pub use writing::Outcome;
