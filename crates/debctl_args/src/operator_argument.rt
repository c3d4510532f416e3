//! The arguments that name operators.

ghost use Rattle.std.specs.Prelude.{◌≡◌};
ghost use Rattle.debctl_args.specs.AskedWords.{operator_named};

use crate::jobs::Cmp;

/// The operator that a word names, if it names one.
pub(crate) fn operator_named(word: &str) -> Option<Cmp>
    ensures { result ≡ operator_named word.now }
{
    match word {
        "lt" | "<<" => Some(Cmp::Less),
        "le" | "<=" => Some(Cmp::LessOrEqual),
        "eq" | "=" => Some(Cmp::Equal),
        "ne" => Some(Cmp::NotEqual),
        "ge" | ">=" => Some(Cmp::GreaterOrEqual),
        "gt" | ">>" => Some(Cmp::Greater),
        _ => None,
    }
}
