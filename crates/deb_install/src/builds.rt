//! Writes which source packages of a file can't be built.

ghost use Rattle.std.specs.Prelude.{◌≡◌, ◌-◌, ℕ, List, Some, IfOk, IfErr, drop, length};
ghost use Rattle.deb_base.specs.Bodies.{file_limit};
ghost use Rattle.deb_base.specs.Devices.{read_failures_after, write_failures_after, ReadFaultIffFailed, WriteFaultIffFailed};
ghost use Rattle.deb_base.specs.Reading.{TakesNoMore};
ghost use Rattle.deb_control.specs.Calls.{IfRefused};
ghost use Rattle.deb_control.specs.Checking.{IsRefusalOfDocument};
ghost use Rattle.deb_control.specs.Documents.{Meaning, refusal_of};
ghost use Rattle.deb_control.specs.Pairs.{Pairwise};
ghost use Rattle.deb_index.specs.Indexes.{packages_of};
ghost use Rattle.deb_index.specs.Listing.{Lists};
ghost use Rattle.deb_index.specs.declared.members.Members.{Members};
ghost use Rattle.deb_relation.specs.Environments.{environment_of};
ghost use Rattle.deb_unmet.specs.Asking.{IsWritersFault};
ghost use Rattle.deb_install.specs.BuildFiles.{StopsBuildable, WritesBuildable, asks_buildable, build_terms};
ghost use Rattle.deb_install.specs.Keeping.{HoldsValues};
ghost use Rattle.deb_install.specs.KeptSources.{HoldsSource, HoldsSources};
ghost use Rattle.deb_install.specs.ReadPackages.{HoldsFile};
ghost use Rattle.deb_install.specs.SourceAnswers.{AreLastVerdicts, AreSourceVerdicts};
ghost use Rattle.deb_install.specs.SourceExplaining.{HasSourceAnswers};
ghost use Rattle.deb_install.specs.SourceKinds.{doc_of};
ghost use Rattle.deb_install.specs.Universes.{terms_in};
ghost use Rattle.deb_install.specs.declared.source_kind.SourceKind.{SourceKind};

use crate::kept::KeptMember;
use crate::kept_source::KeptSource;
use crate::packages::Packages;
use crate::readings::Readings;
use crate::source_kind::SourceKind;
use crate::source_reading::read_sources;
use crate::source_reasons::source_lines_by;
use crate::universe::{Listing, universe_with};
use crate::verdicts::{is_nothing, is_uninstallable};
use deb_base::{Fault, Sink, Source, put_all};
use deb_relation::Env;
use deb_solve::{Budget, Universe, Verdict, solve};
use deb_unmet::{Strength, Summary};
use std::alloc::{AllocError, Global};

/// Of which kind the file is, what is asked of a set of packages, and how long the search may take.
#[derive(Clone, Copy)]
pub struct BuildRequest<'a> {
    /// The kind of the file of source packages.
    pub kind: SourceKind,
    /// Whether a set has to have a package of each essential name, as with `installable`.
    pub essential: bool,
    /// The names of packages that are left out: none is in a set, and none is essential.
    pub without: &'a [&'a [u8]],
    /// How long each of the two searches may take: in every reading, and in one.
    pub budget: Budget,
    /// Whether the line of an uninstallable source package is followed by reasons.
    pub reasons: bool,
}

/// Reads a file of source packages once, and writes a line for each that can't be built with these
/// packages (Debian Policy 4.2 and 7.7): no healthy set of them has build-essential and what its
/// Build-Depends fields need, and nothing that its Build-Conflicts fields exclude. If the request
/// asks for essential packages or leaves out names, a set has to be so too. Each source package is
/// asked by itself.
///
/// - `uninstallable`: there is no such set, however architecture lists are read.
/// - `unsure`: there is one in one reading, and not in every one.
/// - `undecided`: the budget was spent before the search found out, or the packages that can meet
///   groups, and those that packages exclude, are too many to be kept, as with `installable`.
///
/// The word is followed by the number, the name and the version of the source package, and by
/// `source`. The number counts the source packages from 1. The lines are in their order. A source
/// package without a line can be built in every reading.
///
/// If reasons are asked, a line `uninstallable` is followed by lines that say why, unless the
/// search for reasons spends the budget. In one reading, they alone rule the source package out.
/// There are the lines that `installable` has for packages of the index, and these:
///
/// - ` K NAME VERSION source needs GROUP: ..`: the source package needs the group, and exactly the
///   packages with these numbers meet it; `none` if there are none.
/// - ` K NAME VERSION source excludes M Q W B`: no set that builds it may contain the package.
///
/// At most 4,295,032,831 bytes are read: a file of the most bytes, and one piece. Promises about
/// the text of the file hold for a reader whose bytes are known.
///
/// # Errors
///
/// - `Fault::Refused`: the file isn't accepted. This is its first refusal, with a code from 1 to 21
///   and a line of the file, counted from 1. Nothing was written.
/// - `Fault::Read`: a read failed in this call. Nothing was written.
/// - `Fault::Memory`: a growth of memory was refused. Nothing was written.
/// - `Fault::Write`: a write failed in this call. A prefix of the lines of an accepted file was
///   written.
pub fn buildable<R: Source, W: Sink>(
    alloc: Global,
    packages: &Packages,
    environment: &Env,
    request: BuildRequest<'_>,
    reader: &mut R,
    writer: &mut W,
) -> Result<Summary, Fault>
    ensures ok { (members : Members) (index text : List ℕ) → HoldsFile members index packages.now
        → R.left reader.old ≡ Some text → IfOk result (λ summary. WritesBuildable
        (asks_buildable members index request.entry (environment_of environment.now)) text summary
        (W.held writer.old) (W.held writer.new)) }
    ensures refused { (text : List ℕ) → R.left reader.old ≡ Some text
        → IfRefused result (λ refusal. refusal_of (doc_of request.entry.kind) text ≡ Some refusal) }
    ensures stopped { (members : Members) (index text : List ℕ)
        → HoldsFile members index packages.now → R.left reader.old ≡ Some text
        → IfErr result (λ fault. StopsBuildable fault
        (asks_buildable members index request.entry (environment_of environment.now)) text
        (W.held writer.old) (W.held writer.new)) }
    ensures reads_at_most { (text : List ℕ) → R.left reader.old ≡ Some text
        → TakesNoMore text file_limit (R.left reader.new) }

    // Whether or not the reader's bytes are known.
    ensures unwritten { IfRefused result (λ _. writer.new ≡ writer.old) }
    ensures refusal { IfRefused result IsRefusalOfDocument }
    ensures counts_read_failure { R.failures reader.new ≡ read_failures_after
        (R.failures reader.old) result }
    ensures counts_write_failure { W.failures writer.new ≡ write_failures_after
        (W.failures writer.old) result }
    ensures fault_iff_read_failed { ReadFaultIffFailed (R.failures reader.old)
        (R.failures reader.new) result }
    ensures fault_iff_write_failed { WriteFaultIffFailed (W.failures writer.old)
        (W.failures writer.new) result }
{
    let sources = read_sources(alloc, request.kind, reader)?;
    write_sources(alloc, packages, environment, request, &sources, writer)
}

/// Writes the lines of the source packages of which this is kept.
///
/// # Errors
///
/// Out of memory: nothing was written. `Fault::Write`: a prefix was.
fn write_sources<W: Sink>(
    alloc: Global,
    packages: &Packages,
    environment: &Env,
    request: BuildRequest<'_>,
    sources: &[KeptSource],
    writer: &mut W,
) -> Result<Summary, Fault>
    ensures ok { (members : Members) (index text : List ℕ) → HoldsFile members index packages.now
        → HoldsSources request.entry.kind text sources.now → IfOk result (λ summary. WritesBuildable
        (asks_buildable members index request.entry (environment_of environment.now)) text summary
        (W.held writer.old) (W.held writer.new)) }
    ensures stopped { (members : Members) (index text : List ℕ)
        → HoldsFile members index packages.now → HoldsSources request.entry.kind text sources.now
        → IfErr result (λ fault. StopsBuildable fault
        (asks_buildable members index request.entry (environment_of environment.now)) text
        (W.held writer.old) (W.held writer.new)) }
    ensures counts_failure { W.failures writer.new ≡ write_failures_after
        (W.failures writer.old) result }
    ensures fault { IsWritersFault result }
{
    let text = text_of_sources(alloc, packages, environment, request, sources)?;
    put_all(writer, &text)?;
    Ok(Summary {
        paragraphs: sources.len() as u64,
        is_empty: is_nothing(&text),
    })
}

/// Returns the lines of the source packages of which this is kept.
fn text_of_sources(
    alloc: Global,
    packages: &Packages,
    environment: &Env,
    request: BuildRequest<'_>,
    sources: &[KeptSource],
) -> Result<Vec<u8>, AllocError>
    ensures { (meaning others : Meaning) → Pairwise HoldsValues meaning packages.now.kept.items
        → Pairwise Lists meaning (packages_of packages.now.index)
        → Pairwise (HoldsSource request.entry.kind) others sources.now
        → IfOk result (λ text. HasSourceAnswers request.entry.reasons request.entry.kind
        (build_terms request.entry) (environment_of environment.now)
        (packages_of packages.now.index) meaning others text.items) }
{
    let listing = Listing {
        index: &packages.index,
        environment,
        strength: Strength::Depends,
        essential: request.essential,
        without: request.without,
        readings: Readings::Every,
    };
    let every = verdicts_of(alloc, &listing, &packages.kept, sources, request.budget)?;
    let listing = Listing {
        readings: Readings::One,
        ..listing
    };
    source_lines_by(alloc, &listing, &packages.kept, sources, &request, &every)
}

/// Returns a verdict for each source package, in the readings of a listing; none if the universe
/// would be too large.
fn verdicts_of(
    alloc: Global,
    listing: &Listing<'_>,
    kept: &[KeptMember],
    sources: &[KeptSource],
    budget: Budget,
) -> Result<Vec<Verdict>, AllocError>
    ensures { (kind : SourceKind) (meaning others : Meaning) → Pairwise HoldsValues meaning kept.now
        → Pairwise Lists meaning (packages_of listing.now.index.now)
        → Pairwise (HoldsSource kind) others sources.now
        → IfOk result (λ verdicts. AreSourceVerdicts listing.now.readings (terms_in listing.now)
        (environment_of listing.now.environment.now) (packages_of listing.now.index.now) meaning
        others verdicts.items) }
{
    match universe_with(alloc, listing, kept, sources)? {
        Some(universe) => last_verdicts(alloc, &universe, budget, sources.len()),
        None => Ok(Vec::new(alloc)),
    }
}

/// Returns the verdicts of the last packages of a universe, so many.
pub(crate) fn last_verdicts(
    alloc: Global,
    universe: &Universe,
    budget: Budget,
    count: usize,
) -> Result<Vec<Verdict>, AllocError>
    ensures { IfOk result (λ last. AreLastVerdicts universe.now count last.items) }
{
    let verdicts = solve(alloc, universe, budget)?;
    last_of(alloc, &verdicts, count)
}

/// Returns such verdicts, if a source package can't be built by other ones; else none, and no
/// search.
pub(crate) fn verdicts_if(
    alloc: Global,
    listing: &Listing<'_>,
    kept: &[KeptMember],
    sources: &[KeptSource],
    budget: Budget,
    others: &[Verdict],
) -> Result<Vec<Verdict>, AllocError>
    ensures { (kind : SourceKind) (meaning others : Meaning) → Pairwise HoldsValues meaning kept.now
        → Pairwise Lists meaning (packages_of listing.now.index.now)
        → Pairwise (HoldsSource kind) others sources.now
        → IfOk result (λ verdicts. AreSourceVerdicts listing.now.readings (terms_in listing.now)
        (environment_of listing.now.environment.now) (packages_of listing.now.index.now) meaning
        others verdicts.items) }
{
    if others.iter().any(is_uninstallable) {
        verdicts_of(alloc, listing, kept, sources, budget)
    } else {
        Ok(Vec::new(alloc))
    }
}

/// Returns the last verdicts, so many.
fn last_of(alloc: Global, verdicts: &[Verdict], count: usize) -> Result<Vec<Verdict>, AllocError>
    ensures { IfOk result (λ last. last.items
        ≡ drop (length verdicts.now - count) verdicts.now) }
{
    let first = verdicts.len().saturating_sub(count);
    let mut last = Vec::new(alloc);
    last.extend_from_slice(&verdicts[first..])?;
    Ok(last)
}
