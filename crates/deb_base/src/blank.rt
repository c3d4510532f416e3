//! Spaces and tabs: tests for them, and texts without those at their ends (Debian Policy 5.1).

ghost use Rattle.std.specs.Prelude.{◌≡◌, ◌∷◌, IfSome};
ghost use Rattle.deb_base.specs.Bodies.{begins_with_blank, ends_with_blank, is_all_blank, is_blank_byte};
ghost use Rattle.deb_base.specs.Trimming.{trimmed, without_leading_blanks, without_trailing_blanks};

/// Returns whether a byte is a space or a tab.
pub fn is_blank_byte(byte: u8) -> bool
    ensures { result ≡ is_blank_byte byte }
{
    byte == b' ' || byte == b'\t'
}

/// Returns whether the text contains only spaces and tabs, or nothing.
pub fn is_only_blanks(text: &[u8]) -> bool
    ensures { result ≡ is_all_blank text.now }
{
    text.iter().all(|byte| is_blank_byte(*byte))
}

/// Returns whether the first byte is a space or a tab.
pub fn begins_with_blank(text: &[u8]) -> bool
    ensures { result ≡ begins_with_blank text.now }
{
    matches!(text, [b' ' | b'\t', ..])
}

/// Returns whether the last byte is a space or a tab.
pub(crate) fn ends_with_blank(text: &[u8]) -> bool
    ensures { result ≡ ends_with_blank text.now }
{
    let count = text.len();
    count > 0 && is_blank_byte(text[count - 1])
}

/// Returns the text without the spaces and tabs at both ends.
pub fn trimmed(text: &[u8]) -> &[u8]
    ensures { result.now ≡ trimmed text.now }
{
    // Most bodies have one space before them.
    match cut_space(text) {
        Some(body) if !begins_with_blank(body) && !ends_with_blank(body) => body,
        _ => without_trailing_blanks(without_leading_blanks(text)),
    }
}

/// Returns the text after its first byte, if that is a space.
fn cut_space(text: &[u8]) -> Option<&[u8]>
    ensures { IfSome result (λ rest. text.now ≡ 32 ∷ rest.now) }
{
    match text {
        [b' ', rest @ ..] => Some(rest),
        _ => None,
    }
}

/// Returns the text without the spaces and tabs at its end.
pub fn without_trailing_blanks(text: &[u8]) -> &[u8]
    ensures { result.now ≡ without_trailing_blanks text.now }
{
    let mut end = text.len();
    while end > 0 && is_blank_byte(text[end - 1]) {
        end -= 1;
    }
    &text[..end]
}

fn without_leading_blanks(text: &[u8]) -> &[u8]
    ensures { result.now ≡ without_leading_blanks text.now }
{
    let mut rest = text;
    while let [b' ' | b'\t', behind @ ..] = rest {
        rest = behind;
    }
    rest
}
