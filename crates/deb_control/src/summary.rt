//! How many paragraphs passed, and how many runs of lines were refused.

ghost use Rattle.std.specs.Prelude.{◌≡◌, IfErr};
ghost use Rattle.deb_base.specs.Devices.{write_failures_after, Puts, WriteFaultIffFailed};
ghost use Rattle.deb_control.specs.AllRefusals.{total_line};

use deb_base::{Fault, Sink, put_pieces};
use itoa::Buffer;

/// How many paragraphs of a file passed, and how many runs of its lines were refused.
#[derive(Clone, Copy, Debug, PartialEq, Eq)]
pub struct Summary {
    /// The number of paragraphs that passed every rule.
    pub passed: u64,
    /// The number of runs of lines that were refused.
    pub refused: u64,
}

impl Summary {
    /// Writes the last line of `check_all`: `ok N, M refused`. Takes no memory.
    ///
    /// # Errors
    ///
    /// `Fault::Write` only: a write failed in this call, and a prefix of the line was written
    /// before it.
    pub fn write_line<W: Sink>(&self, out: &mut W) -> Result<(), Fault>
        ensures written { Puts (W.held out.old) (W.held out.new) result
            (total_line self.now.passed self.now.refused) }
        ensures fault { IfErr result (λ fault. fault ≡ Fault.Write) }
        ensures counts_failure { W.failures out.new ≡ write_failures_after (W.failures out.old)
            result }
        ensures fault_iff_write_failed { WriteFaultIffFailed (W.failures out.old)
            (W.failures out.new) result }
    {
        let mut passed = Buffer::new();
        let mut refused = Buffer::new();
        put_pieces(
            out,
            &[
                b"ok ",
                passed.format(self.passed).as_bytes(),
                b", ",
                refused.format(self.refused).as_bytes(),
                b" refused\n",
            ],
        )
    }
}
