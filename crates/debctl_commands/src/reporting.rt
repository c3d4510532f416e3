//! Writes faults, usage errors and help to the standard streams, and returns the status for each.

ghost use Rattle.std.specs.Prelude.{◌≡◌, ◌++◌, ◌∷◌, [], IfErr};
ghost use Rattle.deb_base.specs.Bodies.{newline};
ghost use Rattle.deb_base.specs.Devices.{write_failures_after, Puts};
ghost use Rattle.debctl_commands.specs.SameJob.{side_line, word_before, ReportsSide};
ghost use Rattle.debctl_commands.specs.Reporting.{fault_behind, status_of, ReportsFault};
ghost use Rattle.debctl_commands.specs.UsageReporting.{ReportsUsage};

use deb_base::{Fault, Sink, put_all};
use deb_control::{Side, SideFault};
use debctl_args::UsageFault;

/// The status of a bad argument, of out of memory, and of a read or a write that fails.
pub(crate) const FAULT_STATUS: u8 = 3;

/// Writes the line of a fault, and returns the status.
pub(crate) fn report_fault<E: Sink>(fault: &Fault, err: &mut E) -> u8
    ensures { ReportsFault E.held E.failures err.old err.new fault.now result }
{
    match fault.write_line(err) {
        Ok(()) => status_of(fault),
        Err(_) => FAULT_STATUS,
    }
}

/// Writes the line of the fault of a file that can't be opened, after lines that were written for
/// it, or the line of the fault that these met. Returns the status.
pub(crate) fn report_unopened<E: Sink>(written: &Result<(), Fault>, err: &mut E) -> u8
    ensures { ReportsFault E.held E.failures err.old err.new (fault_behind written.now) result }
{
    match written {
        Ok(()) => report_fault(&Fault::Read, err),
        Err(fault) => report_fault(fault, err),
    }
}

/// Writes the line of a fault of two files, and returns the status.
pub(crate) fn report_side<E: Sink>(side_fault: SideFault, err: &mut E) -> u8
    ensures { ReportsSide E.held E.failures err.old err.new side_fault result }
{
    match put_side_line(side_fault, err) {
        Ok(()) => status_of(&side_fault.fault),
        Err(_) => FAULT_STATUS,
    }
}

/// Writes the line of a fault of two files.
#[tactic(auto, using(deb_base::proofs::Writes::puts))]
fn put_side_line<E: Sink>(side_fault: SideFault, err: &mut E) -> Result<(), Fault>
    ensures written { Puts (E.held err.old) (E.held err.new) result (side_line side_fault) }
    ensures fault { IfErr result (λ fault. fault ≡ Fault.Write) }
    ensures counts_failure { E.failures err.new ≡ write_failures_after (E.failures err.old) result }
{
    put_all(err, word_before(side_fault))?;
    side_fault.fault.write_line(err)
}

/// Returns the text before the line of a fault of two files: the side of the file that is refused.
fn word_before(side_fault: SideFault) -> &'static [u8]
    ensures { result.now ≡ word_before side_fault.side side_fault.fault }
{
    match side_fault.fault {
        Fault::Refused(_) => match side_fault.side {
            Side::First => b"first: ",
            Side::Second => b"second: ",
        },
        Fault::Memory | Fault::Read | Fault::Write => b"",
    }
}

/// The status of a fault: 2 where a text is refused, else 3.
pub(crate) fn status_of(fault: &Fault) -> u8
    ensures { result ≡ status_of fault.now }
{
    match fault {
        Fault::Refused(_) => 2,
        Fault::Memory | Fault::Read | Fault::Write => FAULT_STATUS,
    }
}

/// Writes why the arguments ask for no job, or the help that they ask for. Returns the status.
///
/// - 0: the help was written to `out`.
/// - 3: the arguments are wrong, and `err` has the text that says so; or out of memory, or the
///   help couldn't be written, and `err` has the line of that fault. If a write to `err` failed,
///   it has a prefix of that.
pub(crate) fn report_usage<W: Sink, E: Sink>(fault: &UsageFault, out: &mut W, err: &mut E) -> u8
    ensures { ReportsUsage W.held W.failures out.old out.new E.held E.failures err.old err.new
        fault.now result }
{
    match fault {
        UsageFault::Usage(text) => {
            let _ = put_line(err, text.as_str());
            FAULT_STATUS
        }
        UsageFault::Help(text) => match put_line(out, text.as_str()) {
            Ok(()) => 0,
            Err(fault) => report_fault(&fault, err),
        },
        UsageFault::Memory => report_fault(&Fault::Memory, err),
    }
}

/// Writes a text and a newline.
#[tactic(auto, using(deb_base::proofs::Writes::puts))]
fn put_line<W: Sink>(out: &mut W, text: &str) -> Result<(), Fault>
    ensures written { Puts (W.held out.old) (W.held out.new) result (text.now ++ newline ∷ []) }
    ensures fault { IfErr result (λ fault. fault ≡ Fault.Write) }
    ensures counts_failure { W.failures out.new ≡ write_failures_after (W.failures out.old) result }
{
    put_all(out, text.as_bytes())?;
    put_all(out, b"\n")
}
