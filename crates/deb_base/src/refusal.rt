//! Refusals: an error code and a line.

ghost use Rattle.std.specs.Prelude.{◌≡◌, IfErr};
ghost use Rattle.deb_base.specs.Codes.{number_of};
ghost use Rattle.deb_base.specs.Devices.{write_failures_after, Puts, WriteFaultIffFailed};
ghost use Rattle.deb_base.specs.Lines.{refusal_line};

use crate::{Code, Fault, Sink, put_pieces};
use itoa::Buffer;

/// Why a file or an argument is refused, and at which line.
///
/// Lines of a file are counted from 1. The refusal of an argument of the program has line 0.
#[derive(Clone, Copy, Debug, PartialEq, Eq)]
pub struct Refusal {
    pub code: Code,
    pub line: u64,
}

impl Refusal {
    /// Returns the number of the error code, from 1 to 23.
    pub fn number(&self) -> u8
        ensures { result ≡ number_of self.now.code }
    {
        self.code as u8
    }

    /// Writes the line of the refusal, with its newline: `line N: CODE NAME`, such as `line 3: 7
    /// DuplicateField`.
    ///
    /// # Errors
    ///
    /// `Fault::Write` only, exactly if a write to `out` failed in this call. A prefix of the line,
    /// perhaps empty, was written before it.
    pub fn write_line<W: Sink>(&self, out: &mut W) -> Result<(), Fault>
        ensures written { Puts (W.held out.old) (W.held out.new) result (refusal_line self.now) }
        ensures fault { IfErr result (λ fault. fault ≡ Fault.Write) }
        ensures counts_failure { W.failures out.new ≡ write_failures_after (W.failures out.old)
            result }
        ensures fault_iff_write_failed { WriteFaultIffFailed (W.failures out.old)
            (W.failures out.new) result }
    {
        let mut line = Buffer::new();
        let mut number = Buffer::new();
        put_pieces(
            out,
            &[
                b"line ",
                line.format(self.line).as_bytes(),
                b": ",
                number.format(self.number()).as_bytes(),
                b" ",
                self.code.name(),
                b"\n",
            ],
        )
    }
}
