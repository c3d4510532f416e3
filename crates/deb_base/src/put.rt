//! Writing all bytes of a text to a sink.

ghost use Rattle.std.specs.Prelude.{◌≡◌, IfErr};
ghost use Rattle.std.specs.List.{flat_map};
ghost use Rattle.deb_base.specs.Devices.{write_failures_after, Puts, WriteFaultIffFailed};

use crate::{Failed, Fault, Sink};

/// Writes all of the bytes, with as many writes as that takes.
///
/// # Errors
///
/// `Fault::Write` only, exactly if a write to `out` failed in this call. It was the last one, and a
/// prefix of the bytes, perhaps empty, was written before it.
pub fn put_all<W: Sink>(out: &mut W, bytes: &[u8]) -> Result<(), Fault>
    ensures written { Puts (W.held out.old) (W.held out.new) result bytes.now }
    ensures fault { IfErr result (λ fault. fault ≡ Fault.Write) }
    ensures counts_failure { W.failures out.new ≡ write_failures_after (W.failures out.old) result }
    ensures fault_iff_write_failed { WriteFaultIffFailed (W.failures out.old) (W.failures out.new)
        result }
{
    let mut written = 0;
    while written < bytes.len() {
        match out.write(&bytes[written..]) {
            Ok(taken) => written += taken,
            Err(Failed) => return Err(Fault::Write),
        }
    }
    Ok(())
}

/// Writes all of some pieces, one after the other, as [`put_all`] writes bytes.
///
/// # Errors
///
/// `Fault::Write` only, exactly if a write to `out` failed in this call. It was the last one, and a
/// prefix of the joined pieces, perhaps empty, was written before it.
pub fn put_pieces<W: Sink>(out: &mut W, pieces: &[&[u8]]) -> Result<(), Fault>
    ensures written { Puts (W.held out.old) (W.held out.new) result
        (flat_map (λ piece. piece.now) pieces.now) }
    ensures fault { IfErr result (λ fault. fault ≡ Fault.Write) }
    ensures counts_failure { W.failures out.new ≡ write_failures_after (W.failures out.old) result }
    ensures fault_iff_write_failed { WriteFaultIffFailed (W.failures out.old) (W.failures out.new)
        result }
{
    for piece in pieces {
        put_all(out, piece)?;
    }
    Ok(())
}
