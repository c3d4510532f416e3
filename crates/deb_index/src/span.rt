//! Parts of slices.

ghost use Rattle.std.specs.Prelude.{◌≡◌, drop, take};
ghost use Rattle.deb_index.specs.Spans.{part};

/// What is between two offsets; less if the slice ends before.
pub(crate) fn part<T>(all: &[T], start: usize, end: usize) -> &[T]
    ensures { result.now ≡ part start end all.now }
{
    let rest = &all[start.min(all.len())..];
    &rest[..end.saturating_sub(start).min(rest.len())]
}

/// The first items, and the others; fewer if the slice has fewer.
pub(crate) fn cut<T>(all: &[T], len: usize) -> (&[T], &[T])
    ensures first { result.0.now ≡ take len all.now }
    ensures rest { result.1.now ≡ drop len all.now }
{
    all.split_at(len.min(all.len()))
}
