//! Tests of indexes and their reports on relations: each call once, short and long, what is found,
//! and devices that fail.
//!
//! Few functions make a large value, and each makes one: the proof of a function grows with the
//! values that are alive where it may return.

use deb_base::{Code, Fault, Input, Output, Refusal};
use deb_devices::{Pieces, SIZES, Slow, Then};
use deb_field::MultiArch;
use deb_index::Verdict::{Ignored, Met, Unmet};
use deb_index::{
    Answer, DetailedReport, Index, Package, Question, Report, Verdict, only_alternative,
};
use deb_relation::{Env, Relation};
use std::alloc::Global;
use std::io::Write;
use std::test::Fail;

const HELLO: &[u8] = b"Package: hello\nVersion: 1\nArchitecture: amd64\nProvides: vv\n\n\
    Package: world\nVersion: 1.0-0\nArchitecture: all\nProvides: vv (= 2.00)\n";

/// Reads an index.
fn read(alloc: Global, reader: &mut Pieces<'_>) -> Result<Index, Fault> {
    Index::read(alloc, &mut Input::new(&mut *reader))
}

/// The index of a file that is read in pieces of a size; None if a call fails.
fn index_of(alloc: Global, file: &[u8], size: usize) -> Option<Index> {
    match read(alloc, &mut Pieces::new(file, size, 0)) {
        Ok(index) => Some(index),
        Err(_) => None,
    }
}

/// A relation, and what is written of it.
const RELATION: &[u8] = b"ww | aa, vv, world(>=1), bb <!nocheck>";

const TEXT: &[u8] = b"ignored bb <!nocheck>\nmet vv\n 1 hello 1 amd64\n 2 world 1.0 all\n\
    met world (>= 1)\n 2 world 1.0 all\nunmet ww | aa\n";

#[test]
fn what_is_found(rt: HostRuntime) {
    for size in SIZES {
        assert!(rt; is_found(rt.alloc(), size), "pieces of {size}");
    }
}

/// Whether the report on a file in pieces of a size is right.
fn is_found(alloc: Global, size: usize) -> bool {
    match index_of(alloc, HELLO, size) {
        Some(index) => index.len() == 2 && is_reported(alloc, &index),
        None => false,
    }
}

fn is_reported(alloc: Global, index: &Index) -> bool {
    match Relation::parse(alloc, RELATION) {
        Ok(relation) => is_reported_on(alloc, index, &relation),
        Err(_) => false,
    }
}

fn is_reported_on(alloc: Global, index: &Index, relation: &Relation<'_>) -> bool {
    match Env::new(alloc, b"amd64", &[b"nocheck"]) {
        Ok(environment) => is_reported_in(alloc, index, relation, &environment),
        Err(_) => false,
    }
}

fn is_reported_in(
    alloc: Global,
    index: &Index,
    relation: &Relation<'_>,
    environment: &Env,
) -> bool {
    match index.query(alloc, relation, environment) {
        Ok(report) => {
            !report.all_met() && has_verdicts(&report) && lists_providers(&report) == Some(true)
        }
        Err(_) => false,
    }
}

/// Whether the groups have their verdicts, and there are no more.
fn has_verdicts(report: &Report<'_>) -> bool {
    let mut answers = report.answers();
    for verdict in [Ignored, Met, Met, Unmet] {
        if verdict_of(answers.next()) != Some(verdict) {
            return false;
        }
    }
    answers.next().is_none()
}

fn verdict_of(answer: Option<Answer<'_>>) -> Option<Verdict> {
    Some(answer?.verdict())
}

/// Whether the second group, vv, is met by both packages.
fn lists_providers(report: &Report<'_>) -> Option<bool> {
    let mut answers = report.answers();
    answers.next()?;
    let provided = answers.next()?;
    let mut packages = provided.packages();
    let (hello, world) = (packages.next()?, packages.next()?);
    Some(
        provided.text() == b"vv".as_slice()
            && packages.next().is_none()
            && hello.number() == 1
            && world.number() == 2,
    )
}

/// The writer fails after so many good calls, or takes nothing from then on.
#[test]
fn a_failed_write(rt: HostRuntime) {
    assert!(rt; is_written(rt.alloc()));
}

fn is_written(alloc: Global) -> bool {
    match index_of(alloc, HELLO, 65_536) {
        Some(index) => is_written_of(alloc, &index),
        None => false,
    }
}

fn is_written_of(alloc: Global, index: &Index) -> bool {
    match Question::parse(alloc, b"amd64", &[b"nocheck"], RELATION) {
        Ok(question) => is_asked(alloc, index, &question),
        Err(_) => false,
    }
}

fn is_asked(alloc: Global, index: &Index, question: &Question<'_>) -> bool {
    match index.ask(alloc, question) {
        Ok(report) => {
            writes_all(alloc, &report, 1)
                && writes_all(alloc, &report, 7)
                && writes_all(alloc, &report, 100)
        }
        Err(_) => false,
    }
}

/// Whether each write of so many bytes a call ends well, whenever it fails.
fn writes_all(alloc: Global, report: &Report<'_>, most: usize) -> bool {
    for calls in 0..140u64 {
        let fails = writes(report, &mut Slow::new(alloc, most, calls, Then::Fails));
        let takes_none = writes(report, &mut Slow::new(alloc, most, calls, Then::TakesNone));
        if !fails || !takes_none {
            return false;
        }
    }
    true
}

/// Whether all is written, or a prefix up to the one bad write, which is reported.
fn writes(report: &Report<'_>, writer: &mut Slow) -> bool {
    let answer = report.write(&mut Output::new(&mut *writer));
    let held = writer.held.as_slice();
    if writer.failures == 0 {
        return answer == Ok(()) && held == TEXT;
    }
    answer == Err(Fault::Write)
        && writer.failures == 1
        && TEXT.starts_with(held)
        && held.len() < TEXT.len()
}

/// A relation whose groups are ignored, unmet and met, and what is written of it with reasons.
const ASKED: &[u8] = b"world, vv (>= 3) | ww, hello [linux-amd64]";

const REASONS: &[u8] = b"ignored hello [linux-amd64]\n\
    \x20hello [linux-amd64]: linux-amd64 isn't the target amd64\n\
    unmet vv (>= 3) | ww\n\
    \x20vv (>= 3): 1 hello 1 amd64 is provided without a version\n\
    \x20vv (>= 3): 2 world 1.0 all is earlier\n\
    \x20ww: no package has this name\n\
    met world\n 2 world 1.0 all\n";

#[test]
fn why_groups_are_unmet(rt: HostRuntime) {
    assert!(rt; is_explained(rt.alloc()));
}

fn is_explained(alloc: Global) -> bool {
    match index_of(alloc, HELLO, 65_536) {
        Some(index) => is_explained_of(alloc, &index),
        None => false,
    }
}

fn is_explained_of(alloc: Global, index: &Index) -> bool {
    match Question::parse(alloc, b"amd64", &[b"nocheck"], ASKED) {
        Ok(question) => is_asked_why(alloc, index, &question),
        Err(_) => false,
    }
}

fn is_asked_why(alloc: Global, index: &Index, question: &Question<'_>) -> bool {
    match index.ask_why(alloc, question) {
        Ok(report) => !report.all_met() && writes_why(alloc, &report),
        Err(_) => false,
    }
}

fn writes_why(alloc: Global, report: &DetailedReport<'_>) -> bool {
    let mut held = Vec::new(alloc);
    let answer = report.write(&mut Output::new(&mut held));
    answer == Ok(()) && held.as_slice() == REASONS
}

/// Two packages: the first with entries of Provides that provide nothing, one of them in the
/// middle.
const DETAILED: &[u8] = b"\n\nVersion: 0:1.00-0\nPackage: hello\nArchitecture: amd64\n\
    Multi-Arch: foreign\nProvides: xx (= 02.0), vv, ww:any, vv (= 1), uu [amd64]\n\n\n\
    Package: world\nVersion: 2\nArchitecture: all\nProvides: ww:any\n";

const DETAILS: &[u8] = b"Architecture: amd64\nMulti-Arch: foreign\nPackage: hello\n\
    Provides: vv, vv (= 1), xx (= 2.0)\nVersion: 1.0\n";

/// The number of a package of `DETAILED`, its line, its version as the file spells it, what it says
/// of Multi-Arch, and what is kept of it.
struct Kept(u64, u64, &'static [u8], Option<MultiArch>, &'static [u8]);

const KEPT: [Kept; 2] = [
    Kept(1, 3, b"0:1.00-0", Some(MultiArch::Foreign), DETAILS),
    Kept(
        2,
        10,
        b"2",
        None,
        b"Architecture: all\nPackage: world\nVersion: 2\n",
    ),
];

#[test]
fn what_is_kept(rt: HostRuntime) {
    for kept in &KEPT {
        assert!(rt; is_kept(rt.alloc(), kept), "package {}", kept.0);
    }
}

fn is_kept(alloc: Global, kept: &Kept) -> bool {
    match index_of(alloc, DETAILED, 65_536) {
        Some(index) => is_kept_in(alloc, index.package(kept.0), kept),
        None => false,
    }
}

fn is_kept_in(alloc: Global, package: Option<Package<'_>>, kept: &Kept) -> bool {
    match package {
        Some(package) => {
            package.line() == kept.1
                && package.spelled_version() == kept.2
                && package.multi_arch() == kept.3
                && has_details(alloc, &package, kept.4)
        }
        None => false,
    }
}

fn has_details(alloc: Global, package: &Package<'_>, wanted: &[u8]) -> bool {
    let mut details = Vec::new(alloc);
    package.details_into(alloc, &mut details).is_ok() && details.as_slice() == wanted
}

/// Packages that have or provide aa, vv and bb, with versions and without; the second provides its
/// own name.
const NAMED: &[u8] = b"Package: aa\nVersion: 2\nArchitecture: amd64\nProvides: vv, ww (= 3)\n\n\
    Package: bb\nVersion: 5\nArchitecture: i386\nProvides: bb (= 7), vv (= 1.00), vv\n\n\
    Package: aa\nVersion: 2.0-0\nArchitecture: all\nProvides: aa (= 9), aa, uu:any\n\n\
    Package: vv\nVersion: 4\nArchitecture: amd64\n";

/// An alternative of each form, and the packages of `NAMED` that meet it by name and bound.
const BY_NAME: [(&[u8], &[u64]); 23] = [
    (b"aa", &[1, 3]),
    (b"vv", &[1, 2, 4]),
    (b"bb", &[2]),
    (b"ab", &[]),
    (b"aaa", &[]),
    (b"uu", &[]),
    (b"zz (>= 0)", &[]),
    (b"aa (<< 9)", &[1, 3]),
    (b"aa (>> 2)", &[3]),
    (b"aa (= 2.0)", &[3]),
    (b"aa (>= 3)", &[3]),
    (b"aa (>> 9)", &[]),
    (b"ww (= 3)", &[1]),
    (b"ww (= 2)", &[]),
    (b"vv (>= 0)", &[2, 4]),
    (b"vv (= 1.0)", &[2]),
    (b"vv (>> 1.0)", &[4]),
    (b"bb (= 5)", &[2]),
    (b"bb (= 7)", &[2]),
    (b"bb (= 6)", &[]),
    (b"aa:any", &[1, 3]),
    (b"bb:arm64 (>= 5)", &[2]),
    (b"vv [!amd64] <nocheck>", &[1, 2, 4]),
];

#[test]
fn what_meets_by_name(rt: HostRuntime) {
    for (alternative, wanted) in &BY_NAME {
        let is_right = is_met_in(rt.alloc(), NAMED, alternative, wanted);
        assert!(rt; is_right, "{}", alternative.escape_ascii());
    }
    assert!(rt; is_met_in(rt.alloc(), b"", b"aa (= 1)", &[]));
}

/// Whether these packages of a file meet an alternative by name and bound.
fn is_met_in(alloc: Global, file: &[u8], alternative: &[u8], wanted: &[u64]) -> bool {
    match index_of(alloc, file, 65_536) {
        Some(index) => is_met(alloc, &index, alternative, wanted),
        None => false,
    }
}

fn is_met(alloc: Global, index: &Index, alternative: &[u8], wanted: &[u64]) -> bool {
    match met_by_name(alloc, index, alternative) {
        Some(numbers) => numbers.as_slice() == wanted,
        None => false,
    }
}

/// The numbers of the packages that meet the one alternative of a text by name and bound.
fn met_by_name(alloc: Global, index: &Index, text: &[u8]) -> Option<Vec<u64>> {
    match Relation::parse(alloc, text) {
        Ok(relation) => met_by(alloc, index, &relation),
        Err(_) => None,
    }
}

fn met_by(alloc: Global, index: &Index, relation: &Relation<'_>) -> Option<Vec<u64>> {
    index
        .meeting_by_name(alloc, only_alternative(relation)?)
        .ok()
}

/// Two thousand packages of one name, which all provide another one and their own.
#[test]
fn many_of_one_name(rt: HostRuntime) -> Result<(), Fail> {
    let file = many_packages(rt.alloc()).ok_or("memory")?;
    assert!(rt; are_many(rt.alloc(), &file));
    Ok(())
}

fn many_packages(alloc: Global) -> Option<Vec<u8>> {
    let mut file = Vec::new(alloc);
    for number in 0..2_000u32 {
        write!(
            file,
            "Package: aa\nVersion: {number}\nArchitecture: all\nProvides: vv, aa, aa (= 1), vv\n\n"
        )
        .ok()?;
    }
    Some(file)
}

fn are_many(alloc: Global, file: &[u8]) -> bool {
    match index_of(alloc, file, 65_536) {
        Some(index) => are_listed(&index) && are_met(alloc, &index),
        None => false,
    }
}

fn are_listed(index: &Index) -> bool {
    counts_from(index.packages(b"aa"), 1, 2_000)
        && counts_from(index.providers(b"aa"), 1, 2_000)
        && counts_from(index.providers(b"vv"), 1, 2_000)
        && index.packages(b"vv").is_empty()
}

fn are_met(alloc: Global, index: &Index) -> bool {
    for (alternative, first, count) in &MANY_BY_NAME {
        if !counts_met(alloc, index, alternative, *first, *count) {
            return false;
        }
    }
    true
}

pub(crate) fn counts_met(
    alloc: Global,
    index: &Index,
    alternative: &[u8],
    first: u64,
    count: u64,
) -> bool {
    match met_by_name(alloc, index, alternative) {
        Some(numbers) => counts_from(&numbers, first, count),
        None => false,
    }
}

/// Alternatives, with the first number and the count of the packages that meet them, out of two
/// thousand: the first has the version 0, and each provides aa in version 1.
const MANY_BY_NAME: [(&[u8], u64, u64); 9] = [
    (b"aa", 1, 2_000),
    (b"vv", 1, 2_000),
    (b"vv (>= 0)", 1, 0),
    (b"aa (= 1)", 1, 2_000),
    (b"aa (= 0)", 1, 1),
    (b"aa (<< 2)", 1, 2_000),
    (b"aa (>= 1990)", 1_991, 10),
    (b"aa (= 1990)", 1_991, 1),
    (b"aa (>> 1999)", 1, 0),
];

/// Whether these are so many numbers from the first one on, without a gap.
fn counts_from(numbers: &[u64], first: u64, count: u64) -> bool {
    let mut wanted = first;
    for number in numbers {
        if *number != wanted {
            return false;
        }
        wanted = wanted.saturating_add(1);
    }
    numbers.len() as u64 == count
}

/// A file that is no index, in pieces of each size.
#[test]
fn a_file_that_is_refused(rt: HostRuntime) {
    let file = b"Package: aa\nVersion: 1\nArchitecture: all\n\nPackage: bb\nVersion: 1-\n";
    let code = Code::BadVersion;
    for size in SIZES {
        let fault = fault_of(rt.alloc(), &mut Pieces::new(file, size, 0));
        assert!(rt;
            fault == Some(Fault::Refused(Refusal { code, line: 6 })),
            "{fault:?}"
        );
    }
}

fn fault_of(alloc: Global, reader: &mut Pieces<'_>) -> Option<Fault> {
    read(alloc, reader).err()
}

/// The reader fails once, at each of its calls, and would then go on.
#[test]
fn a_failed_read(rt: HostRuntime) {
    for size in SIZES {
        let mut reader = Pieces::new(HELLO, size, 0);
        let fault = fault_of(rt.alloc(), &mut reader);
        assert!(rt; fault.is_none(), "pieces of {size}");
        for failing in 1..reader.calls.saturating_add(1) {
            let is_reported = is_read_fault(rt.alloc(), size, failing);
            assert!(rt; is_reported, "call {failing} in pieces of {size}");
        }
    }
}

/// Whether a failed call of the reader is its last one, and reported.
fn is_read_fault(alloc: Global, size: usize, failing: u64) -> bool {
    let mut reader = Pieces::new(HELLO, size, failing);
    let fault = fault_of(alloc, &mut reader);
    fault == Some(Fault::Read) && reader.calls == failing
}
