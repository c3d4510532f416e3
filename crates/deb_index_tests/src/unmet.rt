//! Tests of `unmet`: the lines of each kind of file, in pieces, long ones, and what is written
//! before a refusal; and the lines of an index in itself.

use deb_base::{Code, Fault, Input, Output, Refusal, VersionText};
use deb_devices::{Pieces, SIZES};
use deb_index::{Index, Members};
use deb_relation::Env;
use deb_unmet::{
    Asked, OwnQuestion, OwnRequest, Question, Request, SourcesAsked, Strength, Summary, unmet,
    unmet_in_itself,
};
use std::alloc::Global;
use std::io::Write;
use std::test::Fail;

const INDEX: &[u8] = b"Package: aa\nVersion: 1\nArchitecture: amd64\nProvides: vv\n\n\
    Package: bb\nVersion: 1\nArchitecture: i386\n";

/// Two packages: one for all, and one for i386.
const FILE: &[u8] = b"Package: xx\nVersion: 0:1.00\nArchitecture: all\n\
    Depends: vv, bb, zz | aa, aa (>= 2)\nPre-Depends: cc\nRecommends: dd\n\n\
    Package: yy\nVersion: 2\nArchitecture: i386\nDepends: aa, bb, cc [linux-any]\n";

const LINES: &[u8] = b"unmet 1 xx 1.0 all Pre-Depends cc\nunmet 1 xx 1.0 all Depends aa (>= 2)\n\
    unmet 1 xx 1.0 all Depends bb\nunmet 2 yy 2 i386 Depends aa\n\
    unsure 2 yy 2 i386 Depends cc [linux-any]\n";

const SPELLED_LINES: &[u8] = b"unmet 1 xx 0:1.00 all Pre-Depends cc\n\
    unmet 1 xx 0:1.00 all Depends aa (>= 2)\nunmet 1 xx 0:1.00 all Depends bb\n\
    unmet 2 yy 2 i386 Depends aa\nunsure 2 yy 2 i386 Depends cc [linux-any]\n";

const WITH_RECOMMENDS: &[u8] = b"Package: xx\nVersion: 1\nArchitecture: amd64\n\
    Depends: bb | aa\nRecommends: dd | ee\n";

const SOURCE: &[u8] = b"Format: 3.0 (quilt)\nSource: ss\nVersion: 1-0\nArchitecture: i386\n\
    Build-Depends-Indep: cc\nBuild-Depends: aa [!linux-amd64], dd [!linux-any]\n\
    Build-Depends-Arch: ee [i386]\nDepends: ff\n";

/// The second may be built for amd64.
const SOURCES: &[u8] = b"Package: ss\nVersion: 1\nBuild-Depends: aa\n\n\
    Package: tt\nVersion: 1\nArchitecture: i386\n linux-any\nBuild-Depends: cc\n";

/// A file whose second paragraph is refused.
const REFUSED: &[u8] = b"Package: xx\nVersion: 1\nArchitecture: all\nDepends: zz\n\n\
    Package: yy\nVersion: 1\nDepends: zz\n";

/// What is asked, the versions of the lines, a file, how many paragraphs it has or the code and the
/// line of its refusal, and the lines that are written.
#[derive(Drop)]
struct Case<'a>(
    Asked,
    VersionText,
    &'a [u8],
    Result<u64, (Code, u64)>,
    &'a [u8],
);

const PACKAGES: Asked = Asked::Packages(Strength::Depends);

const CASES: [Case<'static>; 8] = [
    Case(PACKAGES, VersionText::Canonical, FILE, Ok(2), LINES),
    Case(PACKAGES, VersionText::Spelled, FILE, Ok(2), SPELLED_LINES),
    Case(
        Asked::Binary(Strength::Depends),
        VersionText::Canonical,
        WITH_RECOMMENDS,
        Ok(1),
        b"",
    ),
    Case(
        Asked::Binary(Strength::Recommends),
        VersionText::Canonical,
        WITH_RECOMMENDS,
        Ok(1),
        b"unmet 1 xx 1 amd64 Recommends dd | ee\n",
    ),
    Case(
        Asked::Source(SourcesAsked::All),
        VersionText::Canonical,
        SOURCE,
        Ok(1),
        b"unsure 1 ss 1 source Build-Depends dd [!linux-any]\n\
            unmet 1 ss 1 source Build-Depends-Indep cc\n",
    ),
    Case(
        Asked::Source(SourcesAsked::OfTarget),
        VersionText::Canonical,
        SOURCE,
        Ok(1),
        b"",
    ),
    Case(
        Asked::Sources(SourcesAsked::OfTarget),
        VersionText::Canonical,
        SOURCES,
        Ok(2),
        b"unsure 2 tt 1 source Build-Depends cc\n",
    ),
    // the lines of the paragraphs before a refusal, and nothing of the refused one
    Case(
        PACKAGES,
        VersionText::Canonical,
        REFUSED,
        Err((Code::MissingField, 6)),
        b"unmet 1 xx 1 all Depends zz\n",
    ),
];

#[test]
fn lines_of_files(rt: HostRuntime) {
    for case in &CASES {
        for size in SIZES {
            assert!(rt; is_answered(rt.alloc(), case, size), "{:?}, {size}", case.0);
        }
    }
}

/// Whether a case's answer and lines are right, in pieces of a size.
fn is_answered(alloc: Global, case: &Case<'_>, size: usize) -> bool {
    match Index::read(alloc, &mut Input::new(INDEX)) {
        Ok(index) => is_answered_by(alloc, &index, case, size),
        Err(_) => false,
    }
}

fn is_answered_by(alloc: Global, index: &Index, case: &Case<'_>, size: usize) -> bool {
    match Env::new(alloc, b"amd64", &[]) {
        Ok(environment) => writes_lines(alloc, index, &environment, case, size),
        Err(_) => false,
    }
}

fn writes_lines<'a>(
    alloc: Global,
    index: &'a Index,
    environment: &'a Env,
    case: &Case<'_>,
    size: usize,
) -> bool {
    let Case(asked, versions, file, answer, lines) = case;
    let (asked, versions) = (*asked, *versions);
    let mut held = Vec::new(alloc);
    let unless: Option<&'a Index> = None;
    let question = Question {
        index,
        unless,
        without: &[],
        environment,
    };
    let found = unmet(
        alloc,
        &question,
        Request { asked, versions },
        &mut Input::new(Pieces::new(file, size, 0)),
        &mut Output::new(&mut held),
    );
    is_answer(found, *answer, lines.is_empty()) && held.as_slice() == *lines
}

/// Whether an answer has so many paragraphs and lines or none, or is this refusal.
fn is_answer(
    found: Result<Summary, Fault>,
    wanted: Result<u64, (Code, u64)>,
    is_empty: bool,
) -> bool {
    match wanted {
        Ok(paragraphs) => {
            found
                == Ok(Summary {
                    paragraphs,
                    is_empty,
                })
        }
        Err((code, line)) => found == Err(Fault::Refused(Refusal { code, line })),
    }
}

/// Two thousand packages with one group each: every other one is unmet.
#[test]
fn lines_of_many(rt: HostRuntime) -> Result<(), Fail> {
    let file = many_packages(rt.alloc()).ok_or("memory")?;
    let lines = many_lines(rt.alloc()).ok_or("memory")?;
    let asked = Asked::Packages(Strength::Recommends);
    let case = Case(asked, VersionText::Canonical, &file, Ok(2_000), &lines);
    assert!(rt; is_answered(rt.alloc(), &case, 65_536));
    Ok(())
}

fn many_packages(alloc: Global) -> Option<Vec<u8>> {
    let mut file = Vec::new(alloc);
    for number in 1..=2_000u32 {
        let name = if number % 2 == 0 { "zz" } else { "aa" };
        write!(
            file,
            "Package: xx\nVersion: {number}\nArchitecture: amd64\nDepends: {name}\n\n"
        )
        .ok()?;
    }
    Some(file)
}

fn many_lines(alloc: Global) -> Option<Vec<u8>> {
    let mut lines = Vec::new(alloc);
    for half in 1..=1_000u32 {
        let number = half * 2;
        write!(lines, "unmet {number} xx {number} amd64 Depends zz\n").ok()?;
    }
    Some(lines)
}

const OWN: &[u8] = b"Package: xx\nVersion: 0:1.00\nArchitecture: all\n\
    Depends: yy, bb, zz | xx\nPre-Depends: cc\nRecommends: dd\n\n\
    Package: yy\nVersion: 2\nArchitecture: amd64\nDepends: xx, yy (>= 3)\n";

const OWN_LINES: &[u8] = b"unmet 1 xx 1.0 all Pre-Depends cc\nunmet 1 xx 1.0 all Depends bb\n\
    unmet 2 yy 2 amd64 Depends yy (>= 3)\n";

const OWN_SPELLED_LINES: &[u8] = b"unmet 1 xx 0:1.00 all Pre-Depends cc\n\
    unmet 1 xx 0:1.00 all Depends bb\nunmet 1 xx 0:1.00 all Recommends dd\n\
    unmet 2 yy 2 amd64 Depends yy (>= 3)\n";

/// Which relations are asked, the versions of the lines, and the lines.
struct Own(Strength, VersionText, &'static [u8]);

const OWN_CASES: [Own; 2] = [
    Own(Strength::Depends, VersionText::Canonical, OWN_LINES),
    Own(
        Strength::Recommends,
        VersionText::Spelled,
        OWN_SPELLED_LINES,
    ),
];

#[test]
fn lines_of_an_index_in_itself(rt: HostRuntime) {
    for own in &OWN_CASES {
        for size in SIZES {
            assert!(rt; writes_own(rt.alloc(), own, size), "pieces of {size}");
        }
    }
}

fn writes_own(alloc: Global, own: &Own, size: usize) -> bool {
    match Env::new(alloc, b"amd64", &[]) {
        Ok(environment) => writes_own_lines(alloc, &environment, own, size),
        Err(_) => false,
    }
}

fn writes_own_lines<'a>(alloc: Global, environment: &'a Env, own: &Own, size: usize) -> bool {
    let Own(strength, versions, lines) = own;
    let (strength, versions) = (*strength, *versions);
    let request = OwnRequest {
        members: Members::All,
        strength,
        versions,
    };
    let unless: Option<&'a Index> = None;
    let question = OwnQuestion {
        environment,
        unless,
        without: &[],
    };
    let Ok(index) = Index::new(alloc) else {
        return false;
    };
    let mut held = Vec::new(alloc);
    let found = unmet_in_itself(
        alloc,
        index,
        question,
        request,
        &mut Input::new(Pieces::new(OWN, size, 0)),
        &mut Output::new(&mut held),
    );
    is_answer(found, Ok(2), false) && held.as_slice() == *lines
}
