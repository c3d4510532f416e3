//! Writes which packages of a file can't be installed.

ghost use Rattle.std.specs.Prelude.{◌≡◌, ℕ, List, length, Some, IfOk, IfErr};
ghost use Rattle.std.specs.List.{filter};
ghost use Rattle.deb_base.specs.Bodies.{file_limit};
ghost use Rattle.deb_base.specs.Devices.{read_failures_after, write_failures_after, ReadFaultIffFailed, WriteFaultIffFailed};
ghost use Rattle.deb_base.specs.Reading.{TakesNoMore};
ghost use Rattle.deb_control.specs.Calls.{IfRefused};
ghost use Rattle.deb_control.specs.Checking.{IsRefusalOfDocument};
ghost use Rattle.deb_control.specs.Documents.{Meaning, refusal_of};
ghost use Rattle.deb_control.specs.Pairs.{Pairwise};
ghost use Rattle.deb_index.specs.Indexes.{packages_of};
ghost use Rattle.deb_index.specs.Listing.{Lists};
ghost use Rattle.deb_index.specs.Members.{KeepsMembers, ListsMembers, doc_of};
ghost use Rattle.deb_relation.specs.Environments.{environment_of};
ghost use Rattle.deb_relation.specs.Views.{names_of};
ghost use Rattle.deb_unmet.specs.Asking.{IsWritersFault};
ghost use Rattle.deb_unmet.specs.Files.{is_nothing};
ghost use Rattle.deb_install.specs.Answers.{AreVerdictsIn, names_asked, names_in};
ghost use Rattle.deb_install.specs.Installing.{HasAnswers, StopsAnswers, WritesAnswers, asks_by};
ghost use Rattle.deb_install.specs.Keeping.{HoldsGiven, HoldsValues};
ghost use Rattle.deb_install.specs.Universes.{terms_in};
ghost use Rattle.deb_install.specs.declared.readings.Readings.TheVariants.{Every, One};

use crate::answer::Names;
use crate::kept::{KeptMember, KeptMembers};
use crate::readings::Readings;
use crate::reasons::lines_by;
use crate::universe::{Listing, universe_of};
use deb_base::{Fault, Sink, Source, put_all};
use deb_index::{Index, Members};
use deb_relation::Env;
use deb_solve::{Budget, Verdict, solve};
use deb_unmet::{Strength, Summary};
use std::alloc::{AllocError, Global};

/// Which packages of a file are asked, and how long the search may take.
#[derive(Clone, Copy)]
pub struct InstallRequest<'a> {
    /// Which paragraphs of the file are its packages.
    pub members: Members,
    /// Which relations a package needs.
    pub strength: Strength,
    /// Whether a set has to have a package of each name that a package of the environment's native
    /// architecture, or of all, has with `Essential: yes` (Debian Policy 3.8), in any version and
    /// of any architecture.
    pub essential: bool,
    /// The names of packages that are left out: none is in a set, none is essential, and none is
    /// asked. They are counted all the same.
    pub without: &'a [&'a [u8]],
    /// The names of the packages that are asked: all are, if there are none. A set may contain the
    /// others too.
    pub names: &'a [&'a [u8]],
    /// How long each of the two searches may take: in every reading, and in one.
    pub budget: Budget,
    /// Whether the line of an uninstallable package is followed by reasons.
    pub reasons: bool,
}

impl<'a> InstallRequest<'a> {
    /// Returns the names that are asked, and those that are left out.
    pub(crate) fn asked(&self) -> Names<'a>
        ensures { names_in result
            ≡ names_asked (names_of self.now.names.now) (names_of self.now.without.now) }
    {
        Names {
            asked: self.names,
            without: self.without,
        }
    }
}

/// Reads an index or the installed packages of a status file once, and writes a line for each
/// package that is asked and can't be installed (Debian Policy 7.2 to 7.5): no healthy set of the
/// file's packages contains it. If the request asks for essential packages or leaves out names, a
/// set has to be so too.
///
/// - `uninstallable`: it can't be installed, however architecture lists are read.
/// - `unsure`: it can be installed in one reading, and not in every one.
/// - `undecided`: the budget was spent before the search found out, or the packages that can meet
///   the groups of the file, and those that packages exclude, are too many to be kept: more than
///   256 for each package, and 4,194,304.
///
/// The word is followed by the number, the name, the version and the architecture of the package.
/// The number counts the packages from 1. The lines are in the order of the packages. A package
/// that is asked and has no line can be installed in every reading.
///
/// If reasons are asked, a line `uninstallable` is followed by lines that say why, unless the
/// search for reasons spends the budget. In one reading, they alone rule the package out:
///
/// - ` N P V A needs GROUP: ..`: the package needs the group, and exactly the packages with these
///   numbers meet it; `none` if there are none.
/// - ` N P V A needs NAME (Essential): ..`: each package needs the essential ones, and exactly the
///   packages with these numbers have the name.
/// - ` N P V A excludes M Q W B`: no set with the first package may contain the second one.
/// - ` N P V A is left out`: no set may contain it.
///
/// At most 4,295,032,831 bytes are read: a file of the most bytes, and one piece. Promises about
/// the text of the file hold for a reader whose bytes are known.
///
/// # Errors
///
/// - `Fault::Refused`: the file isn't accepted. This is its first refusal, with a code from 1 to 21
///   and a line of the file, counted from 1. Nothing was written.
/// - `Fault::Read`: a read failed in this call. Nothing was written.
/// - `Fault::Memory`: a growth of memory was refused. Nothing was written.
/// - `Fault::Write`: a write failed in this call. A prefix of the lines of an accepted file was
///   written.
pub fn installable<R: Source, W: Sink>(
    alloc: Global,
    environment: &Env,
    request: &InstallRequest<'_>,
    reader: &mut R,
    writer: &mut W,
) -> Result<Summary, Fault>
    ensures ok { (text : List ℕ) → R.left reader.old ≡ Some text → IfOk result
        (λ summary. WritesAnswers (asks_by request.now (environment_of environment.now)) text
        summary (W.held writer.old) (W.held writer.new)) }
    ensures refused { (text : List ℕ) → R.left reader.old ≡ Some text → IfRefused result
        (λ refusal. refusal_of (doc_of request.now.members) text ≡ Some refusal) }
    ensures stopped { (text : List ℕ) → R.left reader.old ≡ Some text → IfErr result
        (λ fault. StopsAnswers fault (asks_by request.now (environment_of environment.now)) text
        (W.held writer.old) (W.held writer.new)) }
    ensures reads_at_most { (text : List ℕ) → R.left reader.old ≡ Some text
        → TakesNoMore text file_limit (R.left reader.new) }

    // Whether or not the reader's bytes are known.
    ensures unwritten { IfRefused result (λ _. writer.new ≡ writer.old) }
    ensures refusal { IfRefused result IsRefusalOfDocument }
    ensures counts_read_failure { R.failures reader.new ≡ read_failures_after
        (R.failures reader.old) result }
    ensures counts_write_failure { W.failures writer.new ≡ write_failures_after
        (W.failures writer.old) result }
    ensures fault_iff_read_failed { ReadFaultIffFailed (R.failures reader.old)
        (R.failures reader.new) result }
    ensures fault_iff_write_failed { WriteFaultIffFailed (W.failures writer.old)
        (W.failures writer.new) result }
{
    let mut kept = KeptMembers::new(alloc);
    let index = Index::read_members(alloc, reader, request.members, &mut kept)?;
    write_answers(alloc, &index, environment, request, &kept.members, writer)
}

/// Writes the lines of the packages of an index, of which this is kept.
///
/// # Errors
///
/// Out of memory: nothing was written. `Fault::Write`: a prefix was.
fn write_answers<W: Sink>(
    alloc: Global,
    index: &Index,
    environment: &Env,
    request: &InstallRequest<'_>,
    kept: &[KeptMember],
    writer: &mut W,
) -> Result<Summary, Fault>
    ensures ok { (text : List ℕ) → ListsMembers request.now.members text (packages_of index.now)
        → KeepsMembers request.now.members (HoldsGiven request.now.members kept.now) text
        → IfOk result (λ summary. WritesAnswers
        (asks_by request.now (environment_of environment.now)) text summary
        (W.held writer.old) (W.held writer.new)) }
    ensures stopped { (text : List ℕ)
        → ListsMembers request.now.members text (packages_of index.now)
        → KeepsMembers request.now.members (HoldsGiven request.now.members kept.now) text
        → IfErr result (λ fault. StopsAnswers fault
        (asks_by request.now (environment_of environment.now)) text (W.held writer.old)
        (W.held writer.new)) }
    ensures counts_failure { W.failures writer.new ≡ write_failures_after
        (W.failures writer.old) result }
    ensures fault { IsWritersFault result }
{
    let text = text_of(alloc, index, environment, request, kept)?;
    put_all(writer, &text)?;
    Ok(Summary {
        paragraphs: index.len() as u64,
        is_empty: is_nothing(&text),
    })
}

/// Returns whether a text is empty.
pub(crate) fn is_nothing(text: &[u8]) -> bool
    ensures { result ≡ is_nothing text.now }
{
    text.is_empty()
}

/// Returns the lines of the packages of an index, of which this is kept.
fn text_of(
    alloc: Global,
    index: &Index,
    environment: &Env,
    request: &InstallRequest<'_>,
    kept: &[KeptMember],
) -> Result<Vec<u8>, AllocError>
    ensures { (meaning : Meaning) → Pairwise HoldsValues meaning kept.now
        → Pairwise Lists meaning (packages_of index.now) → IfOk result (λ text. HasAnswers
        (asks_by request.now (environment_of environment.now)) (packages_of index.now) meaning
        text.items) }
{
    let listing = Listing {
        index,
        environment,
        strength: request.strength,
        essential: request.essential,
        without: request.without,
        readings: Readings::Every,
    };
    let every = verdicts_of(alloc, &listing, kept, request.budget)?;
    lines_by(alloc, index, environment, request, kept, &every)
}

/// Returns a verdict for each package, by its number, in the readings of a listing; none if the
/// universe would be too large.
fn verdicts_of(
    alloc: Global,
    listing: &Listing<'_>,
    kept: &[KeptMember],
    budget: Budget,
) -> Result<Vec<Verdict>, AllocError>
    ensures { (meaning : Meaning) → Pairwise HoldsValues meaning kept.now
        → Pairwise Lists meaning (packages_of listing.now.index.now) → IfOk result (λ verdicts.
        AreVerdictsIn listing.now.readings (terms_in listing.now)
        (environment_of listing.now.environment.now) (packages_of listing.now.index.now) meaning
        verdicts.items) }
{
    match universe_of(alloc, listing, kept)? {
        Some(universe) => solve(alloc, &universe, budget),
        None => Ok(Vec::new(alloc)),
    }
}

/// Returns such verdicts, if a package isn't installable by other ones; else none, and no search.
pub(crate) fn verdicts_if(
    alloc: Global,
    listing: &Listing<'_>,
    kept: &[KeptMember],
    budget: Budget,
    others: &[Verdict],
) -> Result<Vec<Verdict>, AllocError>
    ensures { (meaning : Meaning) → Pairwise HoldsValues meaning kept.now
        → Pairwise Lists meaning (packages_of listing.now.index.now) → IfOk result (λ verdicts.
        AreVerdictsIn listing.now.readings (terms_in listing.now)
        (environment_of listing.now.environment.now) (packages_of listing.now.index.now) meaning
        verdicts.items) }
{
    if others.iter().any(is_uninstallable) {
        verdicts_of(alloc, listing, kept, budget)
    } else {
        Ok(Vec::new(alloc))
    }
}

pub(crate) fn is_uninstallable(verdict: &Verdict) -> bool {
    *verdict == Verdict::Uninstallable
}
