//! Faults: why a call returned no answer.

ghost use Rattle.std.specs.Prelude.{◌≡◌, IfErr};
ghost use Rattle.deb_base.specs.Devices.{write_failures_after, Puts, WriteFaultIffFailed};
ghost use Rattle.deb_base.specs.Lines.{fault_line};
ghost use Rattle.deb_base.specs.declared.fault.Fault.TheVariants.{Refused, Memory};

use crate::{Refusal, Sink, put_all};
use std::alloc::{AllocError, AllocFailed};

/// Why a call that reads, writes or takes memory returned no answer.
#[derive(Clone, Copy, Debug, PartialEq, Eq)]
pub enum Fault {
    /// The text is refused.
    Refused(Refusal),
    /// A growth of memory was refused.
    Memory,
    /// A read of the source failed.
    Read,
    /// A write to the sink failed.
    Write,
}

impl Fault {
    /// Writes the line of the fault, with its newline: that of the refusal, or `fault: memory`,
    /// `fault: read` or `fault: write`.
    ///
    /// # Errors
    ///
    /// `Fault::Write` only, exactly if a write to `out` failed in this call. A prefix of the line,
    /// perhaps empty, was written before it.
    pub fn write_line<W: Sink>(&self, out: &mut W) -> Result<(), Fault>
        ensures written { Puts (W.held out.old) (W.held out.new) result (fault_line self.now) }
        ensures fault { IfErr result (λ fault. fault ≡ Fault.Write) }
        ensures counts_failure { W.failures out.new ≡ write_failures_after (W.failures out.old)
            result }
        ensures fault_iff_write_failed { WriteFaultIffFailed (W.failures out.old)
            (W.failures out.new) result }
    {
        match self {
            Fault::Refused(refusal) => refusal.write_line(out),
            Fault::Memory => put_all(out, b"fault: memory\n"),
            Fault::Read => put_all(out, b"fault: read\n"),
            Fault::Write => put_all(out, b"fault: write\n"),
        }
    }
}

impl From<Refusal> for Fault {
    ghost from_gives = { λ refusal fault. fault ≡ Refused refusal };

    fn from(refusal: Refusal) -> Fault {
        Fault::Refused(refusal)
    }
}

impl From<AllocError> for Fault {
    ghost from_gives = { λ _ fault. fault ≡ Memory };

    fn from(_: AllocError) -> Fault {
        Fault::Memory
    }
}

impl<T: Drop> From<AllocFailed<T>> for Fault {
    ghost from_gives = { λ _ fault. fault ≡ Memory };

    fn from(_: AllocFailed<T>) -> Fault {
        Fault::Memory
    }
}
