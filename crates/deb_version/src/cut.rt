//! Cuts a component of a version into texts without digits and runs of digits.

ghost use Rattle.std.specs.Prelude.{◌≡◌, ◌-◌, ◌≤◌, ◌∷◌, map, length, not, position, IfOk, IsTrue};
ghost use Rattle.std.specs.Char.{is_ascii_digit};
ghost use Rattle.std.specs.List.{list_all};

/// A text without digits, and the run of digits that follows it. Either may be empty.
#[derive(Clone, Copy)]
pub(crate) struct Cut<'a> {
    pub(crate) text: &'a [u8],
    pub(crate) run: &'a [u8],
    ghost run_digits: { IsTrue (list_all is_ascii_digit run.now) },
}

impl<'a> Cut<'a> {
    ghost use Rattle.deb_version.specs.Cuts.{cut_of, cuts_after};
    ghost use Rattle.deb_version.specs.Parts.{cuts_of};

    /// The first cut of a component, and what follows it.
    pub(crate) fn first(bytes: &'a [u8]) -> (Self, &'a [u8])
        ensures cuts { cuts_of bytes.now ≡ cut_of result.0 ∷ cuts_after result.1.now }
        ensures shorter { length result.1.now ≤ length bytes.now - 1 }
    {
        let (text, digits) = bytes.split_at(first_digit(bytes).unwrap_or(bytes.len()));
        let (run, after) = digits.split_at(first_other(digits).unwrap_or(digits.len()));
        (Cut { text, run }, after)
    }
}

/// The offset of the first digit.
fn first_digit(bytes: &[u8]) -> Option<usize>
    ensures { result ≡ position is_ascii_digit bytes.now }
{
    bytes.iter().position(|byte| byte.is_ascii_digit())
}

/// The offset of the first byte that is no digit.
fn first_other(bytes: &[u8]) -> Option<usize>
    ensures { result ≡ position (λ b. not (is_ascii_digit b)) bytes.now }
{
    bytes.iter().position(|byte| !byte.is_ascii_digit())
}
