//! Runs of digits.

ghost use Rattle.std.specs.Prelude.{◌≡◌, ◌≤◌, ◌==◌, drop, length};
ghost use Rattle.std.specs.List.{prefix_len};

/// A run of digits, or a revision, without its leading zeros.
pub(crate) fn without_zeros(run: &[u8]) -> &[u8]
    ensures { result.now ≡ drop (prefix_len (λ b. b == 48) run.now) run.now }
{
    &run[leading_zeros(run)..]
}

/// With how many zeros a run begins.
fn leading_zeros(run: &[u8]) -> usize
    ensures value { result ≡ prefix_len (λ b. b == 48) run.now }
    ensures bound { result ≤ length run.now }
{
    run.iter().take_while(|digit| **digit == b'0').count()
}
