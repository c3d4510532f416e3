//! Reads a whole file into memory, up to a limit.

ghost use Rattle.std.specs.Prelude.{◌≡◌, ◌<◌, ◌≤◌, ℕ, List, Some, length, IfOk, IfErr};
ghost use Rattle.deb_base.specs.Devices.{read_failures_after};
ghost use Rattle.deb_base.specs.Reading.{IsMemoryOrRead, ReadsEnough, TakesNoMore, TakesPiece};

use crate::{Failed, Fault, Source};
use std::alloc::Global;

/// The most bytes that a reader asks for with one read.
pub const PIECE_LIMIT: usize = 65_536;

/// Reads a file to its end, or until more than `most` bytes of it are read. It takes at most one
/// piece of [`PIECE_LIMIT`] bytes after the first `most` bytes.
///
/// # Errors
///
/// Out of memory, or a failed read. After either, too, at most one piece was taken beyond the first
/// `most` bytes.
pub fn read_text<R: Source>(alloc: Global, source: &mut R, most: u64) -> Result<Vec<u8>, Fault>
    ensures ok { IfOk result (λ text. ReadsEnough most (R.left source.old) text.items) }
    ensures reads_at_most { (text : List ℕ) → R.left source.old ≡ Some text
        → TakesNoMore text most (R.left source.new) }
    ensures fault { IfErr result IsMemoryOrRead }
    ensures counts_failure { R.failures source.new ≡ read_failures_after (R.failures source.old)
        result }
{
    let mut piece = vec![in alloc; 0; PIECE_LIMIT]?;
    read_by(alloc, piece.as_mut_slice(), source, most)
}

/// Reads a file so, by pieces that are first read into a buffer.
fn read_by<R: Source>(
    alloc: Global,
    piece: &mut [u8],
    source: &mut R,
    most: u64,
) -> Result<Vec<u8>, Fault>
    requires room { 0 < length piece.old }
    requires small { length piece.old ≤ PIECE_LIMIT }
    ensures ok { IfOk result (λ text. ReadsEnough most (R.left source.old) text.items) }
    ensures reads_at_most { (text : List ℕ) → R.left source.old ≡ Some text
        → TakesNoMore text most (R.left source.new) }
    ensures fault { IfErr result IsMemoryOrRead }
    ensures counts_failure { R.failures source.new ≡ read_failures_after (R.failures source.old)
        result }
{
    let mut text = Vec::new(alloc);
    while text.len() as u64 <= most {
        if read_piece(piece, source, &mut text)? == 0 {
            return Ok(text);
        }
    }
    Ok(text)
}

/// Reads one piece into a buffer, and appends it to a text. Returns how many bytes it read; it
/// takes no more than that piece from the source.
fn read_piece<R: Source>(
    piece: &mut [u8],
    source: &mut R,
    text: &mut Vec<u8>,
) -> Result<usize, Fault>
    requires room { 0 < length piece.old }
    requires small { length piece.old ≤ PIECE_LIMIT }
    ensures ok { IfOk result (λ count. TakesPiece (R.left source.old) text.old.items count
        (R.left source.new) text.new.items) }
    ensures reads_at_most { (text : List ℕ) → R.left source.old ≡ Some text
        → TakesNoMore text 0 (R.left source.new) }
    ensures fault { IfErr result IsMemoryOrRead }
    ensures counts_failure { R.failures source.new ≡ read_failures_after (R.failures source.old)
        result }
{
    match source.read(piece) {
        Ok(count) => {
            text.extend_from_slice(&piece[..count])?;
            Ok(count)
        }
        Err(Failed) => Err(Fault::Read),
    }
}
