//! The arguments that are numbers.

ghost use Rattle.std.specs.Prelude.{◌≡◌};
ghost use Rattle.debctl_args.specs.AskedWords.{budget_named, number_named};

use itoa::Buffer;

/// The number that a word is, in decimal and without zeros before it; below 2^64.
pub(crate) fn number_named(word: &str) -> Option<u64>
    ensures { result ≡ number_named word.now }
{
    match word.parse::<u64>() {
        Ok(number) if Buffer::new().format(number) == word => Some(number),
        _ => None,
    }
}

/// The steps of a search that a word allows: such a number, from 1 to 1000000000.
pub(crate) fn budget_named(word: &str) -> Option<u32>
    ensures { result ≡ budget_named word.now }
{
    match number_named(word) {
        Some(steps) if 0 < steps && steps <= 1_000_000_000 => Some(steps as u32),
        _ => None,
    }
}
