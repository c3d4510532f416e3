//! The job on an index and a relation that a file contains: `query --relation-from`.

ghost use Rattle.std.specs.Prelude.{◌≡◌, ◌<◌, IfErr, IfOk};
ghost use Rattle.deb_base.specs.Devices.{read_failures_after};
ghost use Rattle.deb_base.specs.Faults.{IsReadersFault};
ghost use Rattle.debctl_commands.specs.JobDevices.{reader_of, writer_of};
ghost use Rattle.debctl_commands.specs.QueryFrom.{AreRefusedFrom, IsRead, RefusesLong};
ghost use Rattle.debctl_commands.specs.QueryFrom.{from_promise};
ghost use Rattle.debctl_commands.specs.Promises.{Ends};
ghost use Rattle.debctl_commands.specs.QueryJob.{question_of};
ghost use Rattle.debctl_commands.specs.Taking.{TakesFile};

use crate::query_job::{QueryWords, run_query};
use crate::reporting::report_fault;
use deb_base::{Code, Fault, PARAGRAPH_LIMIT, Refusal, Sink, Source, read_text};
use std::alloc::Global;

/// Writes to `out` which packages of an index, which `second` reads, meet the relation that `first`
/// reads, and returns the status.
///
/// It does what [`run_query`] does, for the relation that is the bytes of the file. If these are
/// more than 16,777,216, they are refused as a paragraph that is too long, with line 0, and the
/// index isn't read.
pub(crate) fn run_query_from<R: Source, S: Source, W: Sink, E: Sink>(
    alloc: Global,
    words: &QueryWords<'_>,
    first: &mut R,
    second: &mut S,
    out: &mut W,
    err: &mut E,
) -> u8
    ensures reads_at_most { TakesFile (R.left first.old) (R.left first.new) }
    ensures second_reads_at_most { TakesFile (S.left second.old) (S.left second.new) }
    ensures second_untouched_if_refused { AreRefusedFrom (question_of words.now) (R.left first.old)
        → second.new ≡ second.old }

    // Where a call of a device failed, the status is 3.
    ensures status_3_if_read_failed { R.failures first.old < R.failures first.new → result ≡ 3 }
    ensures status_3_if_second_read_failed { S.failures second.old < S.failures second.new → result
        ≡ 3 }
    ensures status_3_if_write_failed { W.failures out.old < W.failures out.new → result ≡ 3 }

    // Whatever the status: there is an answer, and that is reported.
    ensures reports_answer { Ends (from_promise words.now.members words.now.options
        (question_of words.now))
        (reader_of (R.left first.old) (R.failures first.old) (R.failures first.new))
        (reader_of (S.left second.old) (S.failures second.old) (S.failures second.new))
        (writer_of W.held W.failures out.old out.new)
        (writer_of E.held E.failures err.old err.new) result }
{
    match read_relation(alloc, first) {
        Ok(relation) => run_query(alloc, words, relation.as_slice(), second, out, err),
        Err(fault) => report_fault(&fault, err),
    }
}

/// Reads the relation that a file contains: all its bytes.
pub(crate) fn read_relation<R: Source>(alloc: Global, first: &mut R) -> Result<Vec<u8>, Fault>
    ensures ok { IfOk result (λ relation. IsRead (R.left first.old) relation.items) }
    ensures fault { IfErr result
        (λ fault. IsReadersFault fault (RefusesLong (R.left first.old))) }
    ensures counts_failure { R.failures first.new ≡ read_failures_after (R.failures first.old)
        result }
    ensures reads_at_most { TakesFile (R.left first.old) (R.left first.new) }
{
    let text = read_text(alloc, first, PARAGRAPH_LIMIT as u64)?;
    if text.len() > PARAGRAPH_LIMIT {
        return Err(Fault::Refused(Refusal {
            code: Code::ParagraphTooLong,
            line: 0,
        }));
    }
    Ok(text)
}
