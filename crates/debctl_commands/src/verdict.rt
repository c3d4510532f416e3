//! What is found of an accepted file of which something is demanded.

ghost use Rattle.std.specs.Prelude.{◌≡◌, IfErr};
ghost use Rattle.deb_base.specs.Devices.{write_failures_after, Puts};
ghost use Rattle.deb_syntax.specs.Lines.{ends_line};
ghost use Rattle.debctl_commands.specs.Verdicts.{too_few_words, verdict_by, verdict_line};
ghost use Rattle.debctl_commands.specs.Verdicts.{verdict_status, verdict_words};

use deb_base::{Fault, Sink, put_all, put_pieces};
use itoa::Buffer;

/// What is found of an accepted file.
#[derive(Clone, Copy)]
pub enum Verdict {
    /// It has so many paragraphs, and meets the demands.
    Whole(u64),
    /// Its last byte is no newline.
    NoNewline,
    /// It has fewer paragraphs than are demanded.
    TooFew { paragraphs: u64, least: u64 },
}

impl Verdict {
    /// Returns what is found of a file, by whether its end is as demanded, by the fewest paragraphs
    /// and by the number of those that it has.
    pub(crate) fn by(ends_well: bool, least: u64, paragraphs: u64) -> Verdict
        ensures { result ≡ verdict_by ends_well least paragraphs }
    {
        if !ends_well {
            return Verdict::NoNewline;
        }
        if paragraphs < least {
            return Verdict::TooFew { paragraphs, least };
        }
        Verdict::Whole(paragraphs)
    }

    /// Returns its status: 0 if the file meets the demands, else 2.
    pub(crate) fn status(self) -> u8
        ensures { result ≡ verdict_status self }
    {
        match self {
            Verdict::Whole(_) => 0,
            Verdict::NoNewline => 2,
            Verdict::TooFew { .. } => 2,
        }
    }

    /// Writes it in words.
    pub(crate) fn write_words<W: Sink>(self, out: &mut W) -> Result<(), Fault>
        ensures written { Puts (W.held out.old) (W.held out.new) result (verdict_words self) }
        ensures fault { IfErr result (λ fault. fault ≡ Fault.Write) }
        ensures counts_failure { W.failures out.new ≡ write_failures_after (W.failures out.old)
            result }
    {
        match self {
            Verdict::Whole(paragraphs) => {
                put_pieces(out, &[b"ok ", Buffer::new().format(paragraphs).as_bytes()])
            }
            Verdict::NoNewline => put_all(out, b"incomplete: no newline at the end"),
            Verdict::TooFew { paragraphs, least } => put_too_few(paragraphs, least, out),
        }
    }

    /// Writes it in words, with a newline.
    #[tactic(auto, using(deb_base::proofs::Writes::puts))]
    pub(crate) fn write_line<W: Sink>(self, out: &mut W) -> Result<(), Fault>
        ensures written { Puts (W.held out.old) (W.held out.new) result (verdict_line self) }
        ensures fault { IfErr result (λ fault. fault ≡ Fault.Write) }
        ensures counts_failure { W.failures out.new ≡ write_failures_after (W.failures out.old)
            result }
    {
        self.write_words(out)?;
        put_all(out, b"\n")
    }
}

/// Writes that a file has fewer paragraphs than are demanded.
fn put_too_few<W: Sink>(paragraphs: u64, least: u64, out: &mut W) -> Result<(), Fault>
    ensures written { Puts (W.held out.old) (W.held out.new) result
        (too_few_words paragraphs least) }
    ensures fault { IfErr result (λ fault. fault ≡ Fault.Write) }
    ensures counts_failure { W.failures out.new ≡ write_failures_after (W.failures out.old) result }
{
    put_pieces(
        out,
        &[
            b"incomplete: ",
            Buffer::new().format(paragraphs).as_bytes(),
            b" of at least ",
            Buffer::new().format(least).as_bytes(),
            b" paragraphs",
        ],
    )
}

/// Whether a text is empty or ends with a newline.
pub(crate) fn ends_line(text: &[u8]) -> bool
    ensures { result ≡ ends_line text.now }
{
    let count = text.len();
    if count > 0 {
        text[count - 1] == b'\n'
    } else {
        true
    }
}
