//! When repeats are dropped from what is gathered.

/// How many members there are at least when repeats among them are dropped.
pub(crate) const FEW: usize = 1_000;

/// Returns how many members there may be before repeats are dropped again: twice as many as are
/// kept now.
pub(crate) fn most_after(kept: usize) -> usize {
    kept.saturating_mul(2).max(FEW)
}
