//! The latest versions of packages over several files, for programs in C.

ghost use Rattle.std.specs.Prelude.{◌≡◌, ◌⊎◌, ◌<◌, ◌+◌, ◌^◌, ◌++◌, ◌∷◌, [], ℕ, List, IfErr, IfOk, OnOk};
ghost use Rattle.deb_latest.specs.Files.{HasWrittenFiles, paragraphs_in};
ghost use Rattle.deb_latest.specs.Reads.{kind_of};
ghost use Rattle.deb_latest.specs.Requests.{Asked, asked_of};
ghost use Rattle.deb_latest.specs.Writes.{HasWritten};
ghost use Rattle.deb_latest.specs.Written.{chosen_text};
ghost use Rattle.deb_relation.specs.Views.{names_of};
ghost use Rattle.deb_version.specs.Grammar.{SpellsVersion};
ghost use Rattle.deb_version.specs.Version.{meaning_of};
ghost use Rattle.debctl_ffi.specs.Answers.{HasStatus, plain, refusing};
ghost use Rattle.debctl_ffi.specs.Buffers.{buffer};
ghost use Rattle.debctl_ffi.specs.Latest.{AnswersLatest, AsksNoLatest, HasLatest, HasReadAll, IsAskedLatest, IsNoLimit, StopsAt, StopsReading, by_number, has_limit, kind_by};
ghost use Rattle.debctl_ffi.specs.Versions.{IsNoVersion, bad_version};

use crate::answer::{Answer, no_kind, no_memory, refused, some_refused, yes};
use crate::buffer::reply;
use deb_base::{Code, Fault, Refusal, Sink, SliceSource, VecSink};
use deb_latest::{By, Kind, Latest, Request, Winners};
use deb_version::Version;
use std::alloc::{AllocError, Global};

/// Writes of each package over several files the paragraph with the latest version, as its file
/// has it, with an empty line between two, in the order of the files, to the start of `out`, and
/// returns the length of that (Debian Policy 5.3, 5.4 and 5.6.12). Of equal versions it is the
/// first. If `before` isn't empty, only versions earlier than it are considered. `kind` is 1
/// (binary packages) or 3 (source packages); paragraphs of one package have one name, or if `by` is
/// 1 one name and one architecture. Status 0, with the number of these paragraphs. 4: `out` is too
/// small; `len` is the length that it needs. 5: out of memory. 6: `kind` or `by` is another number.
///
/// Status 2, refused: `before` isn't a version, with the code 18 and the line 0; else the first
/// text that is refused, with its first refusal, and its place from 1 as `count`. Except for status
/// 0, `out` is unchanged.
#[unsafe(no_mangle)]
pub extern "C" fn deb_latest(
    alloc: Global,
    kind: u8,
    by: u8,
    before: &[u8],
    texts: &[&[u8]],
    out: &mut [u8],
    len: &mut usize,
) -> Answer
    ensures answers { AnswersLatest kind by before.now (names_of texts.now)
        (buffer out.old out.new len.new) result }
    ensures status { HasStatus result.status (0 ∷ 2 ∷ 4 ∷ 5 ∷ 6 ∷ []) }
{
    *len = 0;
    let request = match request_of(kind, by, before) {
        Ok(request) => request,
        Err(told) => return told,
    };
    match latest_of(alloc, &request, texts) {
        Ok((count, found)) => reply(yes(count), &found, out, len),
        Err(told) => told,
    }
}

/// What the numbers and the limit ask; or the answer that says why they ask nothing.
fn request_of(kind: u8, by: u8, before: &[u8]) -> Result<Request<'_>, Answer>
    ensures ok { IfOk result (λ request. IsAskedLatest kind by before.now (asked_of request)) }
    ensures fails { IfErr result (λ told. IsNoLimit before.now told
        ⊎ ((told ≡ plain 6) × AsksNoLatest kind by)) }
    ensures status { IfErr result (λ told. HasStatus told.status (0 ∷ 2 ∷ 4 ∷ 5 ∷ 6 ∷ [])) }
{
    let Some(kind) = kind_by(kind) else {
        return Err(no_kind());
    };
    let Some(by) = by_number(by) else {
        return Err(no_kind());
    };
    match limit_of(before) {
        Ok(before) => Ok(Request { kind, by, before }),
        Err(told) => Err(told),
    }
}

/// The kind of files of a number.
fn kind_by(number: u8) -> Option<Kind>
    ensures { result ≡ kind_by number }
{
    match number {
        1 => Some(Kind::Packages),
        3 => Some(Kind::Sources),
        _ => None,
    }
}

/// Which paragraphs are of one package, by a number.
fn by_number(number: u8) -> Option<By>
    ensures { result ≡ by_number number }
{
    match number {
        0 => Some(By::Name),
        1 => Some(By::NameAndArchitecture),
        _ => None,
    }
}

/// The version before which all are that are considered, if there is one; or the answer that it
/// isn't a version.
#[tactic(auto, using(crate::proofs::LatestTexts::no_limit))]
fn limit_of(before: &[u8]) -> Result<Option<Version<'_>>, Answer>
    ensures ok { IfOk result (has_limit before.now) }
    ensures none { IfErr result (IsNoLimit before.now) }
    ensures status { IfErr result (λ told. told.status ≡ 2) }
{
    match before {
        [] => Ok(None),
        [_, ..] => match parse_limit(before) {
            Ok(version) => Ok(Some(version)),
            Err(told) => Err(told),
        },
    }
}

/// A version, or the answer that it isn't one.
fn parse_limit(before: &[u8]) -> Result<Version<'_>, Answer>
    ensures ok { IfOk result (λ version. SpellsVersion before.now (meaning_of version)) }
    ensures none { IfErr result
        (λ told. IsNoVersion before.now × (told ≡ refusing 2 bad_version)) }
{
    match Version::parse(before) {
        Ok(version) => Ok(version),
        Err(_) => Err(refused(&Refusal {
            code: Code::BadVersion,
            line: 0,
        })),
    }
}

/// The paragraphs with the latest versions, and how many there are; or the answer that says why
/// there are none.
fn latest_of(
    alloc: Global,
    request: &Request<'_>,
    texts: &[&[u8]],
) -> Result<(u64, Vec<u8>), Answer>
    ensures ok { IfOk result
        (λ found. HasLatest (asked_of request.now) (names_of texts.now) found.0 found.1.items) }
    ensures fails { IfErr result (StopsReading (asked_of request.now).kind (names_of texts.now)) }
    ensures status { IfErr result (λ told. HasStatus told.status (0 ∷ 2 ∷ 4 ∷ 5 ∷ 6 ∷ [])) }
{
    let latest = match read_texts(alloc, request, texts) {
        Ok(latest) => latest,
        Err(told) => return Err(told),
    };
    match found_by(alloc, &latest, texts) {
        Ok(found) => Ok(found),
        Err(AllocError) => Err(no_memory()),
    }
}

/// Reads all files; or the answer that says which is refused and why, or that memory is out.
fn read_texts(alloc: Global, request: &Request<'_>, texts: &[&[u8]]) -> Result<Latest, Answer>
    ensures ok { IfOk result (HasReadAll (asked_of request.now) (names_of texts.now)) }
    ensures fails { IfErr result (StopsReading (asked_of request.now).kind (names_of texts.now)) }
    ensures status { IfErr result (λ told. HasStatus told.status (0 ∷ 2 ∷ 4 ∷ 5 ∷ 6 ∷ [])) }
{
    let mut latest = match Latest::new(alloc, request) {
        Ok(latest) => latest,
        Err(AllocError) => return Err(no_memory()),
    };
    for place in 0..texts.len() {
        latest = match read_text(latest, texts[place], place) {
            Ok(more) => more,
            Err(told) => return Err(told),
        };
    }
    Ok(latest)
}

/// Reads one more file, before which there are so many.
fn read_text(latest: Latest, text: &[u8], place: usize) -> Result<Latest, Answer>
    requires few { place < 2 ^ 63 }
    ensures ok { (asked : Asked) (texts : List (List ℕ)) → HasReadAll asked texts latest
        → IfOk result (HasReadAll asked (texts ++ text.now ∷ [])) }
    ensures fails { IfErr result (StopsAt (kind_of latest) text.now (place + 1)) }
    ensures status { IfErr result (λ told. HasStatus told.status (0 ∷ 2 ∷ 4 ∷ 5 ∷ 6 ∷ [])) }
{
    match latest.read(&mut SliceSource::new(text)) {
        Ok(more) => Ok(more),
        Err(Fault::Refused(refusal)) => Err(some_refused(&refusal, place as u64 + 1)),
        Err(_) => Err(no_memory()),
    }
}

/// The paragraphs with the latest versions of files that were read, and how many there are; or out
/// of memory.
fn found_by(alloc: Global, latest: &Latest, texts: &[&[u8]]) -> Result<(u64, Vec<u8>), AllocError>
    ensures { (asked : Asked) → HasReadAll asked (names_of texts.now) latest.now
        → IfOk result (λ found. HasLatest asked (names_of texts.now) found.0 found.1.items) }
{
    let numbers = latest.winners()?;
    let count = numbers.len() as u64;
    let found = write_texts(alloc, numbers, latest.count(), texts)?;
    Ok((count, found))
}

/// The paragraphs of files that have these numbers; or out of memory. The files have so many.
fn write_texts(
    alloc: Global,
    numbers: Vec<u64>,
    count: u64,
    texts: &[&[u8]],
) -> Result<Vec<u8>, AllocError>
    ensures { IfOk result (λ found. found.items
        ≡ chosen_text numbers.items (paragraphs_in (names_of texts.now))) }
{
    let mut winners = Winners::new(alloc, numbers, count);
    let mut sink = VecSink::new(alloc);
    match write_files(&mut winners, texts, &mut sink) {
        Ok(()) => Ok(sink.into_bytes()),
        Err(_) => Err(AllocError),
    }
}

/// Writes those of the paragraphs of files.
fn write_files<W: Sink>(winners: &mut Winners, texts: &[&[u8]], writer: &mut W) -> Result<(), Fault>
    ensures { (numbers : List ℕ) (count : ℕ) → HasWritten numbers count [] winners.old
        → OnOk result (HasWrittenFiles numbers count (names_of texts.now) winners.new
        (W.held writer.old) (W.held writer.new)) }
{
    for place in 0..texts.len() {
        winners.write(&mut SliceSource::new(texts[place]), writer)?;
    }
    Ok(())
}
