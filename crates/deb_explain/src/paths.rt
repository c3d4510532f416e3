//! Writes a path so that it can be shown in a line.

ghost use Rattle.std.specs.Prelude.{◌≡◌, IfErr};
ghost use Rattle.deb_base.specs.Devices.{write_failures_after, Puts, WriteFaultIffFailed};
ghost use Rattle.std.specs.List.{list_any};
ghost use Rattle.std.specs.Str.{chars};
ghost use Rattle.deb_explain.specs.Paths.{is_hidden, is_plain, path_byte, shown_path};
ghost use Rattle.deb_explain.specs.Texts.{file_line, path_line};

use crate::writing::write_byte;
use deb_base::{Fault, Sink, put_all};
use ucd_category::GeneralCategory;

/// Writes the line `file: PATH` of an explanation; the path isn't shortened. Takes no memory.
///
/// # Errors
///
/// `Fault::Write` only: a write failed in this call, and a prefix of the line was written before
/// it.
pub fn write_file_line<W: Sink>(path: &[u8], out: &mut W) -> Result<(), Fault>
    ensures written { Puts (W.held out.old) (W.held out.new) result (file_line path.now) }
    ensures fault { IfErr result (λ fault. fault ≡ Fault.Write) }
    ensures counts_failure { W.failures out.new ≡ write_failures_after (W.failures out.old) result }
    ensures fault_iff_write_failed { WriteFaultIffFailed (W.failures out.old) (W.failures out.new)
        result }
{
    write_path_line(b"file: ", path, out)
}

/// Writes the line of a path after its key.
#[tactic(auto, using(deb_base::proofs::Writes::puts), unfolding(crate::specs::Texts::path_line))]
fn write_path_line<W: Sink>(key: &[u8], path: &[u8], out: &mut W) -> Result<(), Fault>
    ensures written { Puts (W.held out.old) (W.held out.new) result (path_line key.now path.now) }
    ensures fault { IfErr result (λ fault. fault ≡ Fault.Write) }
    ensures counts_failure { W.failures out.new ≡ write_failures_after (W.failures out.old) result }
    ensures fault_iff_write_failed { WriteFaultIffFailed (W.failures out.old) (W.failures out.new)
        result }
{
    put_all(out, key)?;
    write_path(path, out)?;
    put_all(out, b"\n")
}

/// Writes a path so that it can be shown in a line: control characters and backslashes as `\n`,
/// `\t`, `\\` or `\xNN`, other text unchanged. If the path isn't UTF-8, or contains a character
/// beyond ASCII that hides or reorders text or ends a line (Unicode's categories Cc, Cf, Zl and
/// Zp), each byte beyond ASCII is written as `\xNN`. Takes no memory.
///
/// # Errors
///
/// `Fault::Write` only: a write failed in this call, and a prefix of that text was written before
/// it.
pub fn write_path<W: Sink>(path: &[u8], out: &mut W) -> Result<(), Fault>
    ensures written { Puts (W.held out.old) (W.held out.new) result (shown_path path.now) }
    ensures fault { IfErr result (λ fault. fault ≡ Fault.Write) }
    ensures counts_failure { W.failures out.new ≡ write_failures_after (W.failures out.old) result }
    ensures fault_iff_write_failed { WriteFaultIffFailed (W.failures out.old) (W.failures out.new)
        result }
{
    let plain = is_plain(path);
    for byte in path {
        write_path_byte(plain, *byte, out)?;
    }
    Ok(())
}

/// Whether a path is UTF-8 without a hidden character.
fn is_plain(path: &[u8]) -> bool
    ensures { result ≡ is_plain path.now }
{
    match str::from_utf8(path) {
        Ok(text) => !has_hidden(text),
        Err(_) => false,
    }
}

/// Whether a text contains a hidden character.
fn has_hidden(text: &str) -> bool
    ensures { result ≡ list_any is_hidden (chars text.now) }
{
    for c in text.chars() {
        if is_hidden(c) {
            return true;
        }
    }
    false
}

/// Whether a character beyond ASCII has an effect on the text around it: one of Unicode's
/// categories Cc, Cf, Zl and Zp.
#[tactic(auto, unfolding(crate::specs::Paths::is_hidden, crate::specs::Paths::has_effect))]
fn is_hidden(c: char) -> bool
    ensures { result ≡ is_hidden c }
{
    c >= '\u{80}'
        && matches!(
            GeneralCategory::for_char(c),
            GeneralCategory::Control
                | GeneralCategory::Format
                | GeneralCategory::LineSeparator
                | GeneralCategory::ParagraphSeparator
        )
}

#[tactic(auto, unfolding(crate::specs::Paths::path_byte))]
fn write_path_byte<W: Sink>(plain: bool, byte: u8, out: &mut W) -> Result<(), Fault>
    ensures written { Puts (W.held out.old) (W.held out.new) result (path_byte plain byte) }
    ensures fault { IfErr result (λ fault. fault ≡ Fault.Write) }
    ensures counts_failure { W.failures out.new ≡ write_failures_after (W.failures out.old) result }
{
    if plain && byte >= 0x80 {
        put_all(out, &[byte])
    } else {
        write_byte(byte, out)
    }
}
