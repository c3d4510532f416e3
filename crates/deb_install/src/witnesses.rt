//! Writes which packages of a file to install together with one of them.

ghost use Rattle.std.specs.Prelude.{◌≡◌, ◌++◌, ℕ, List, [], Some, IfOk, IfErr, OnOk, cond};
ghost use Rattle.deb_base.specs.Bodies.{file_limit};
ghost use Rattle.deb_base.specs.Devices.{read_failures_after, write_failures_after, ReadFaultIffFailed, WriteFaultIffFailed};
ghost use Rattle.deb_base.specs.Reading.{TakesNoMore};
ghost use Rattle.deb_control.specs.Calls.{IfRefused};
ghost use Rattle.deb_control.specs.Checking.{IsRefusalOfDocument};
ghost use Rattle.deb_control.specs.Documents.{Meaning, refusal_of};
ghost use Rattle.deb_control.specs.Pairs.{Pairwise};
ghost use Rattle.deb_health.specs.Lines.{line_at};
ghost use Rattle.deb_index.specs.Indexes.{packages_of};
ghost use Rattle.deb_index.specs.Kept.{listed_of};
ghost use Rattle.deb_index.specs.Listing.{Lists};
ghost use Rattle.deb_index.specs.ReportText.{canonical_version, package_line};
ghost use Rattle.deb_index.specs.Members.{KeepsMembers, ListsMembers, doc_of};
ghost use Rattle.deb_relation.specs.Environments.{environment_of};
ghost use Rattle.deb_relation.specs.Views.{names_of};
ghost use Rattle.deb_solve.specs.Health.{is_among};
ghost use Rattle.deb_solve.specs.Marks.{AreMarks, marked};
ghost use Rattle.deb_unmet.specs.Asking.{IsWritersFault};
ghost use Rattle.deb_install.specs.Answers.{names_in};
ghost use Rattle.deb_install.specs.Installing.{asks_by};
ghost use Rattle.deb_install.specs.Keeping.{HoldsGiven, HoldsValues};
ghost use Rattle.deb_install.specs.Seeking.{AreAsked, IsFoundIn};
ghost use Rattle.deb_install.specs.Universes.{terms_in};
ghost use Rattle.deb_install.specs.Witnesses.{HasSought, StopsWitness, WritesWitness, member_line, set_lines};

use crate::answer::{Names, append_package, is_asked};
use crate::exclusions::push_number;
use crate::kept::{KeptMember, KeptMembers};
use crate::readings::Readings;
use crate::reasons::lines_by;
use crate::universe::{Listing, universe_of};
use crate::verdicts::InstallRequest;
use deb_base::{Fault, Sink, Source, put_all};
use deb_index::{Index, Package};
use deb_relation::Env;
use deb_solve::{Budget, SetOrVerdicts};
use std::alloc::{AllocError, Global};

/// What was found among the packages of a file.
#[derive(Clone, Copy, Debug, PartialEq, Eq)]
pub struct Sought {
    /// How many packages the file has.
    pub paragraphs: u64,
    /// Whether a set was found.
    pub is_found: bool,
}

/// Reads an index or the installed packages of a status file once, and writes a healthy set of its
/// packages that contains one that is asked (Debian Policy 7.2 to 7.5). It is healthy in every
/// reading of architecture lists, has the essential packages if the request asks for them, and none
/// that is left out. Of the packages that are asked the first in the order of the file
/// is taken for which the search finds a set.
///
/// A line of the set is a space, the number, the name, the version and the architecture of a
/// package, in the order of the packages, as a query has the lines of packages that it finds. If
/// the search finds no set, the lines are those that `installable` has: there is one for each
/// package that is asked, since for none of them a set was found.
///
/// At most 4,295,032,831 bytes are read: a file of the most bytes, and one piece. Promises about
/// the text of the file hold for a reader whose bytes are known.
///
/// # Errors
///
/// - `Fault::Refused`: the file isn't accepted. This is its first refusal, with a code from 1 to 21
///   and a line of the file, counted from 1. Nothing was written.
/// - `Fault::Read`: a read failed in this call. Nothing was written.
/// - `Fault::Memory`: a growth of memory was refused. Nothing was written.
/// - `Fault::Write`: a write failed in this call. A prefix of the lines of an accepted file was
///   written.
pub fn witness<R: Source, W: Sink>(
    alloc: Global,
    environment: &Env,
    request: &InstallRequest<'_>,
    reader: &mut R,
    writer: &mut W,
) -> Result<Sought, Fault>
    ensures ok { (text : List ℕ) → R.left reader.old ≡ Some text → IfOk result
        (λ sought. WritesWitness (asks_by request.now (environment_of environment.now)) text sought
        (W.held writer.old) (W.held writer.new)) }
    ensures refused { (text : List ℕ) → R.left reader.old ≡ Some text → IfRefused result
        (λ refusal. refusal_of (doc_of request.now.members) text ≡ Some refusal) }
    ensures stopped { (text : List ℕ) → R.left reader.old ≡ Some text → IfErr result
        (λ fault. StopsWitness fault (asks_by request.now (environment_of environment.now)) text
        (W.held writer.old) (W.held writer.new)) }
    ensures reads_at_most { (text : List ℕ) → R.left reader.old ≡ Some text
        → TakesNoMore text file_limit (R.left reader.new) }

    // Whether or not the reader's bytes are known.
    ensures unwritten { IfRefused result (λ _. writer.new ≡ writer.old) }
    ensures refusal { IfRefused result IsRefusalOfDocument }
    ensures counts_read_failure { R.failures reader.new ≡ read_failures_after
        (R.failures reader.old) result }
    ensures counts_write_failure { W.failures writer.new ≡ write_failures_after
        (W.failures writer.old) result }
    ensures fault_iff_read_failed { ReadFaultIffFailed (R.failures reader.old)
        (R.failures reader.new) result }
    ensures fault_iff_write_failed { WriteFaultIffFailed (W.failures writer.old)
        (W.failures writer.new) result }
{
    let mut kept = KeptMembers::new(alloc);
    let index = Index::read_members(alloc, reader, request.members, &mut kept)?;
    write_sought(alloc, &index, environment, request, &kept.members, writer)
}

/// Writes what is found among the packages of an index, of which this is kept.
///
/// # Errors
///
/// Out of memory: nothing was written. `Fault::Write`: a prefix was.
fn write_sought<W: Sink>(
    alloc: Global,
    index: &Index,
    environment: &Env,
    request: &InstallRequest<'_>,
    kept: &[KeptMember],
    writer: &mut W,
) -> Result<Sought, Fault>
    ensures ok { (text : List ℕ) → ListsMembers request.now.members text (packages_of index.now)
        → KeepsMembers request.now.members (HoldsGiven request.now.members kept.now) text
        → IfOk result (λ sought. WritesWitness
        (asks_by request.now (environment_of environment.now)) text sought
        (W.held writer.old) (W.held writer.new)) }
    ensures stopped { (text : List ℕ)
        → ListsMembers request.now.members text (packages_of index.now)
        → KeepsMembers request.now.members (HoldsGiven request.now.members kept.now) text
        → IfErr result (λ fault. StopsWitness fault
        (asks_by request.now (environment_of environment.now)) text (W.held writer.old)
        (W.held writer.new)) }
    ensures counts_failure { W.failures writer.new ≡ write_failures_after
        (W.failures writer.old) result }
    ensures fault { IsWritersFault result }
{
    let found = seek(alloc, index, environment, request, kept)?;
    put_all(writer, &found.lines)?;
    Ok(Sought {
        paragraphs: index.len() as u64,
        is_found: found.is_found,
    })
}

/// What was found, and its lines.
#[derive(Drop)]
struct Found {
    is_found: bool,
    lines: Vec<u8>,
}

/// Looks for a set among the packages of an index, of which this is kept.
fn seek(
    alloc: Global,
    index: &Index,
    environment: &Env,
    request: &InstallRequest<'_>,
    kept: &[KeptMember],
) -> Result<Found, AllocError>
    ensures { (meaning : Meaning) → Pairwise HoldsValues meaning kept.now
        → Pairwise Lists meaning (packages_of index.now) → IfOk result (λ found. HasSought
        (asks_by request.now (environment_of environment.now)) (packages_of index.now) meaning
        found.is_found found.lines.items) }
{
    let listing = Listing {
        index,
        environment,
        strength: request.strength,
        essential: request.essential,
        without: request.without,
        readings: Readings::Every,
    };
    match set_of(alloc, &listing, kept, request)? {
        SetOrVerdicts::Set(members) => Ok(Found {
            is_found: true,
            lines: lines_of_set(alloc, index, &members)?,
        }),
        SetOrVerdicts::Refused(every) => Ok(Found {
            is_found: false,
            lines: lines_by(alloc, index, environment, request, kept, &every)?,
        }),
    }
}

/// Returns a set in the readings of a listing, or verdicts; none of these if the universe would be
/// too large.
fn set_of(
    alloc: Global,
    listing: &Listing<'_>,
    kept: &[KeptMember],
    request: &InstallRequest<'_>,
) -> Result<SetOrVerdicts, AllocError>
    ensures { (meaning : Meaning) → Pairwise HoldsValues meaning kept.now
        → Pairwise Lists meaning (packages_of listing.now.index.now) → IfOk result
        (IsFoundIn listing.now.readings (terms_in listing.now) (names_of request.now.names.now)
        (environment_of listing.now.environment.now) (packages_of listing.now.index.now)
        meaning) }
{
    let names = Names {
        asked: request.names,
        without: listing.without,
    };
    let wanted = numbers_asked(alloc, listing.index, &names)?;
    match universe_of(alloc, listing, kept)? {
        Some(universe) => deb_solve::witness(alloc, &universe, &wanted, request.budget),
        None => Ok(SetOrVerdicts::Refused(Vec::new(alloc))),
    }
}

/// Returns the numbers of the packages that are asked.
fn numbers_asked(alloc: Global, index: &Index, names: &Names<'_>) -> Result<Vec<u32>, AllocError>
    ensures { IfOk result (λ wanted. AreAsked (names_in names.now) (packages_of index.now)
        wanted.items) }
{
    let mut wanted = Vec::new(alloc);
    for count in 0..index.len() {
        append_if_asked(&mut wanted, names, index, count as u64 + 1)?;
    }
    Ok(wanted)
}

/// Appends this number, if its package is asked.
fn append_if_asked(
    out: &mut Vec<u32>,
    names: &Names<'_>,
    index: &Index,
    number: u64,
) -> Result<(), AllocError>
    ensures { AreAsked (names_in names.now) (packages_of index.now) out.old.items
        → OnOk result (AreAsked (names_in names.now) (packages_of index.now) out.new.items) }
{
    match index.package(number) {
        Some(package) if is_asked(names, package.name()) => push_number(out, number),
        _ => Ok(()),
    }
}

/// Returns the lines of the members of a set.
fn lines_of_set(alloc: Global, index: &Index, members: &[u32]) -> Result<Vec<u8>, AllocError>
    ensures { IfOk result (λ lines. lines.items
        ≡ set_lines (is_among members.now) (packages_of index.now)) }
{
    let marks = marks_of(alloc, members, index.len() + 1)?;
    marked_lines(alloc, index, &marks)
}

/// Returns for each number below a count whether it is one of these.
fn marks_of(alloc: Global, numbers: &[u32], count: usize) -> Result<Vec<bool>, AllocError>
    ensures { IfOk result (λ marks. AreMarks marks.items numbers.now count) }
{
    let mut marks = vec![in alloc; false; count]?;
    for number in numbers {
        if (*number as usize) < marks.len() {
            marks[*number as usize] = true;
        }
    }
    Ok(marks)
}

/// Returns the lines of the packages whose numbers have a mark.
fn marked_lines(alloc: Global, index: &Index, marks: &[bool]) -> Result<Vec<u8>, AllocError>
    ensures { IfOk result (λ lines. lines.items
        ≡ set_lines (marked marks.now) (packages_of index.now)) }
{
    let mut lines = Vec::new(alloc);
    for count in 0..index.len() {
        append_member(&mut lines, marks, index, count as u64 + 1)?;
    }
    Ok(lines)
}

/// Appends the line of the package with this number, if it has a mark.
fn append_member(
    out: &mut Vec<u8>,
    marks: &[bool],
    index: &Index,
    number: u64,
) -> Result<(), AllocError>
    ensures { OnOk result (out.new.items ≡ out.old.items
        ++ line_at (member_line (marked marks.now)) (packages_of index.now) number) }
{
    match index.package(number) {
        Some(package) => append_if_marked(out, is_marked(marks, number), number, &package),
        None => Ok(()),
    }
}

/// Appends the line of a package, if it has a mark.
fn append_if_marked(
    out: &mut Vec<u8>,
    mark: bool,
    number: u64,
    package: &Package<'_>,
) -> Result<(), AllocError>
    ensures { OnOk result (out.new.items ≡ out.old.items
        ++ cond mark (package_line canonical_version (number, listed_of «package».now)) []) }
{
    if mark {
        append_package(out, number, package)
    } else {
        Ok(())
    }
}

fn is_marked(marks: &[bool], number: u64) -> bool
    ensures { result ≡ marked marks.now number }
{
    match marks.get(number as usize) {
        Some(mark) => *mark,
        None => false,
    }
}
