//! Cuts a text into lines that are versions, or returns the first line that isn't one.

ghost use Rattle.std.specs.Prelude.{◌≡◌, None, Some, map, length, take, IfOk, IfErr};
ghost use Rattle.deb_base.specs.Bodies.{pieces_of, file_limit};
ghost use Rattle.deb_base.specs.Faults.{RefusedOrMemory};
ghost use Rattle.deb_syntax.specs.Lines.{lines_of};
ghost use Rattle.deb_sort.specs.Refusals.{first_refusal, refusal_of, line_behind};
ghost use Rattle.deb_sort.specs.VersionLines.{texts_of};

use deb_base::{Code, FILE_LIMIT, Fault, Refusal};
use deb_version::VersionText;
use std::alloc::{AllocError, Global};

/// The lines of a text, each a version, or the refusal of the text.
pub(crate) fn version_lines<'a>(
    alloc: Global,
    text: &'a [u8],
) -> Result<Vec<VersionText<'a>>, Fault>
    ensures ok { IfOk result (λ lines. texts_of lines.items ≡ lines_of text.now) }
    ensures accepted { IfOk result (λ _. refusal_of text.now ≡ None) }
    ensures fault { IfErr result
        (λ fault. RefusedOrMemory fault (λ refusal. refusal_of text.now ≡ Some refusal)) }
{
    if text.len() as u64 > FILE_LIMIT {
        return Err(Fault::Refused(Refusal {
            code: Code::FileTooLong,
            line: count_pieces(&text[..FILE_LIMIT as usize]),
        }));
    }
    let texts = cut_lines(alloc, text)?;
    parse_lines(alloc, texts.as_slice())
}

/// How many pieces a text has between its newlines.
fn count_pieces(text: &[u8]) -> u64
    ensures { result ≡ length (pieces_of text.now) }
{
    text.split(|byte| *byte == b'\n').count() as u64
}

/// The lines of a text.
fn cut_lines<'a>(alloc: Global, text: &'a [u8]) -> Result<Vec<&'a [u8]>, AllocError>
    ensures { IfOk result (λ lines. map (λ line. line.now) lines.items ≡ lines_of text.now) }
{
    let mut pieces: Vec<&'a [u8]> = text.split(|byte| *byte == b'\n').collect(alloc)?;
    let count = pieces.len();
    if count > 0 && pieces[count - 1].is_empty() {
        pieces.truncate(count - 1);
    }
    Ok(pieces)
}

/// The versions of lines, or the refusal of the first that is none.
fn parse_lines<'a>(alloc: Global, texts: &[&'a [u8]]) -> Result<Vec<VersionText<'a>>, Fault>
    ensures ok { IfOk result (λ lines. texts_of lines.items ≡ map (λ text. text.now) texts.now) }
    ensures accepted { IfOk result
        (λ _. first_refusal 1 (map (λ text. text.now) texts.now) ≡ None) }
    ensures fault { IfErr result (λ fault. RefusedOrMemory fault
        (λ refusal. first_refusal 1 (map (λ text. text.now) texts.now) ≡ Some refusal)) }
{
    let mut lines = Vec::with_capacity(alloc, texts.len())?;
    for i in 0..texts.len() {
        let Ok(line) = VersionText::parse(texts[i]) else {
            return Err(Fault::Refused(Refusal {
                code: Code::BadVersion,
                line: i as u64 + 1,
            }));
        };
        lines.push(line)?;
    }
    Ok(lines)
}
