//! Names of fields: where they end, and whether they are valid.

ghost use Rattle.std.specs.Prelude.{◌≡◌, ◌≤◌, length, take, IsTrue};
ghost use Rattle.std.specs.List.{list_all, prefix_len};
ghost use Rattle.deb_base.specs.FieldNames.{is_name, is_name_byte, may_begin_name};

/// How many bytes of a name the text begins with.
pub(crate) fn name_bytes(text: &[u8]) -> usize
    ensures most { result ≡ prefix_len is_name_byte text.now }
    ensures all { IsTrue (list_all is_name_byte (take result text.now)) }
{
    let mut len = 0;
    while len < text.len() && is_name_byte(text[len]) {
        len += 1;
    }
    len
}

/// Whether the first `len` bytes, which are all bytes of a name, are the name of a field (Debian
/// Policy 5.1).
pub(crate) fn is_name(text: &[u8], len: usize) -> bool
    requires within { len ≤ length text.now }
    requires all { IsTrue (list_all is_name_byte (take len text.now)) }
    ensures { result ≡ is_name (take len text.now) }
{
    len > 0 && may_begin_name(text[0])
}

/// Whether a byte is neither `#` nor `-`.
fn may_begin_name(byte: u8) -> bool
    ensures { result ≡ may_begin_name byte }
{
    byte != b'#' && byte != b'-'
}

/// Whether a byte is one from `!` to `~` without the colon.
fn is_name_byte(byte: u8) -> bool
    ensures { result ≡ is_name_byte byte }
{
    byte.is_ascii_graphic() && byte != b':'
}
