//! The standard streams that the program writes to. After a failed write they aren't written to
//! again.

use crate::reporting::FAULT_STATUS;
use deb_base::Fault;
use std::alloc::Global;
use std::io::{self, BufWriter, ErrorKind, Stderr, Stdout, Write};

/// Standard output and standard error, each with a buffer before it.
#[derive(Drop)]
pub(crate) struct Streams {
    pub(crate) out: BufWriter<UntilFailure<Stdout>>,
    pub(crate) err: BufWriter<UntilFailure<Stderr>>,
}

impl Streams {
    pub(crate) fn new(rt: &HostRuntime) -> Result<Streams, Fault> {
        let out = buffered(rt.alloc(), rt.stdout())?;
        let err = buffered(rt.alloc(), rt.stderr())?;
        Ok(Streams { out, err })
    }
}

/// Writes out what a job has written, and returns the status.
///
/// The line that the job reports is kept back until its output is written out: if that fails,
/// `Fault::Write` is reported instead, so that there is one line in every case.
pub(crate) fn write_out<W: Write + Drop, E: Write + Drop>(
    mut out: BufWriter<W>,
    mut err: BufWriter<E>,
    status: u8,
) -> Result<u8, Fault> {
    let is_written = out.flush().is_ok();
    // What couldn't be written is dropped, and not tried again.
    let _ = out.into_parts();
    if !is_written {
        let _ = err.into_parts();
        return Err(Fault::Write);
    }
    let is_reported = err.flush().is_ok();
    let _ = err.into_parts();
    Ok(if is_reported { status } else { FAULT_STATUS })
}

/// A buffer before a stream, which isn't asked again once a write has failed: not by the flush of
/// what was kept back then, either.
fn buffered<W: Write + Drop>(
    alloc: Global,
    stream: W,
) -> Result<BufWriter<UntilFailure<W>>, Fault> {
    BufWriter::new(alloc, UntilFailure::new(stream)).map_err(|_| Fault::Memory)
}

/// A stream that isn't asked again once a write to it has failed, or took nothing. One that was
/// interrupted may be made again.
#[derive(Drop)]
pub(crate) struct UntilFailure<W> {
    stream: W,
    has_failed: bool,
}

impl<W> UntilFailure<W> {
    pub(crate) fn new(stream: W) -> UntilFailure<W> {
        UntilFailure {
            stream,
            has_failed: false,
        }
    }
}

impl<W: Write> Write for UntilFailure<W> {
    fn write(&mut self, bytes: &[u8]) -> io::Result<usize> {
        if self.has_failed {
            return Err(io::Error::from(ErrorKind::BrokenPipe));
        }
        let written = self.stream.write(bytes);
        self.has_failed = match &written {
            Ok(taken) => *taken == 0 && !bytes.is_empty(),
            Err(error) => error.kind() != ErrorKind::Interrupted,
        };
        written
    }

    fn flush(&mut self) -> io::Result<()> {
        if self.has_failed {
            return Err(io::Error::from(ErrorKind::BrokenPipe));
        }
        self.stream.flush()
    }
}

/// A buffer that is written out after each byte which ends a record.
#[derive(Drop)]
pub(crate) struct Records<W: Write + Drop> {
    buffer: BufWriter<W>,
    end: u8,
}

impl<W: Write + Drop> Records<W> {
    pub(crate) fn new(buffer: BufWriter<W>, end: u8) -> Records<W> {
        Records { buffer, end }
    }

    /// The buffer, with what it has kept back.
    pub(crate) fn into_buffer(self) -> BufWriter<W> {
        self.buffer
    }
}

impl<W: Write + Drop> Write for Records<W> {
    fn write(&mut self, bytes: &[u8]) -> io::Result<usize> {
        let taken = self.buffer.write(bytes)?;
        if bytes[..taken].last() == Some(&self.end) {
            self.buffer.flush()?;
        }
        Ok(taken)
    }

    fn flush(&mut self) -> io::Result<()> {
        self.buffer.flush()
    }
}
