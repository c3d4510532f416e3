//! Tests of `check_all`, `explain_all` and `Refusals`: no refusal, several, and those that end a
//! file, for each kind of document.

use deb_base::{Code, Fault, Input, Output, Refusal};
use deb_control::{Refusals, Summary, check_all};
use deb_explain::{explain_all, explain_last};
use deb_field::Doc;
use std::alloc::Global;

const PACKAGES: &[u8] = b"Package: aa\nVersion: 1\nArchitecture: all\n\nPackage: bb\n\n\
    Package: cc\nVersion: 1_2\nArchitecture: all\n\n#\n\n#x\n";

const PACKAGES_LINES: &[u8] = b"line 5: 12 MissingField\nline 8: 18 BadVersion\n\
    line 11: 3 Comment\nline 13: 3 Comment\nok 1, 4 refused\n";

const NAMES: &[u8] = b"a:1\na:2\n\n x\n\n\n\nb:1\n";

const NAMES_LINES: &[u8] =
    b"line 2: 7 DuplicateField\nline 4: 4 StrayContinuation\nok 1, 2 refused\n";

const NAMES_EXPLAINED: &[u8] =
    b"file: a\nline: 2\ncode: 7\nname: DuplicateField\nfield: a\nrule: A paragraph must not \
    contain two fields of the same name; case doesn't matter (Debian Policy 5.1).\nusually: \
    two paragraphs without an empty line between them\n\nfile: a\nline: 4\ncode: 4\nname: \
    StrayContinuation\nvalue:  x\nrule: The first line of a paragraph must not begin with a \
    space or tab (Debian Policy 5.1).\nusually: a blank line within a field; write it as ` \
    .`\n\nok 1, 2 refused\n";

/// A kind of document, a file, its lines, and how many paragraphs pass and how many are refused.
struct Row(Doc, &'static [u8], &'static [u8], u64, u64);

const ROWS: [Row; 7] = [
    Row(Doc::Packages, PACKAGES, PACKAGES_LINES, 1, 4),
    Row(Doc::Any, NAMES, NAMES_LINES, 1, 2),
    Row(
        Doc::Any,
        b"a: 1\n\nb\n\nc: 2",
        b"line 3: 6 NoColon\nok 2, 1 refused\n",
        2,
        1,
    ),
    Row(Doc::Any, b"", b"ok 0, 0 refused\n", 0, 0),
    Row(
        Doc::Binary,
        b"#\n\n#\n",
        b"line 1: 3 Comment\nok 0, 1 refused\n",
        0,
        1,
    ),
    Row(
        Doc::Source,
        b"",
        b"line 1: 10 NoParagraph\nok 0, 1 refused\n",
        0,
        1,
    ),
    Row(
        Doc::Status,
        b"Package: aa\nStatus: x\n\nPackage: bb\nVersion: 1\n",
        b"line 4: 12 MissingField\nok 1, 1 refused\n",
        1,
        1,
    ),
];

#[test]
fn lines_of_all_refusals(rt: HostRuntime) {
    for row in &ROWS {
        assert!(rt; has_lines(rt.alloc(), row), "{} and {}", row.3, row.4);
    }
}

fn has_lines(alloc: Global, row: &Row) -> bool {
    let Row(doc, file, lines, passed, refused) = row;
    let mut held = Vec::new(alloc);
    let summary = check_all(
        alloc,
        *doc,
        &mut Input::new(*file),
        &mut Output::new(&mut held),
    );
    summary == summary_of(*passed, *refused) && held.as_slice() == *lines
}

fn summary_of(passed: u64, refused: u64) -> Result<Summary, Fault> {
    Ok(Summary { passed, refused })
}

#[test]
fn explanations_of_all_refusals(rt: HostRuntime) {
    assert!(rt; is_explained(rt.alloc()));
}

fn is_explained(alloc: Global) -> bool {
    let mut held = Vec::new(alloc);
    let summary = explain_all(
        alloc,
        Doc::Any,
        b"a",
        &mut Input::new(NAMES),
        &mut Output::new(&mut held),
    );
    summary == summary_of(1, 2) && held.as_slice() == NAMES_EXPLAINED
}

const REFUSALS: [Option<(Code, u64)>; 6] = [
    Some((Code::MissingField, 5)),
    Some((Code::BadVersion, 8)),
    Some((Code::Comment, 11)),
    Some((Code::Comment, 13)),
    None,
    None,
];

#[test]
fn refusals_one_after_another(rt: HostRuntime) {
    assert!(rt; are_refusals(rt.alloc()));
}

fn are_refusals(alloc: Global) -> bool {
    let mut file = Input::new(PACKAGES);
    let mut reader = Refusals::new(alloc, Doc::Packages);
    let is_new = is_last(alloc, &reader, None);
    for refusal in REFUSALS {
        if !is_next(alloc, &mut reader, &mut file, refusal) {
            return false;
        }
    }
    is_new && Ok(reader.summary()) == summary_of(1, 4)
}

fn is_next(
    alloc: Global,
    reader: &mut Refusals,
    file: &mut Input<&[u8]>,
    wanted: Option<(Code, u64)>,
) -> bool {
    reader.next(file) == Ok(refusal_of(wanted)) && is_last(alloc, reader, wanted)
}

fn refusal_of(wanted: Option<(Code, u64)>) -> Option<Refusal> {
    let (code, line) = wanted?;
    Some(Refusal { code, line })
}

/// Whether this refusal is explained, or none.
fn is_last(alloc: Global, reader: &Refusals, wanted: Option<(Code, u64)>) -> bool {
    match explain_last(alloc, reader) {
        Ok(Some(explanation)) => Some(explanation.refusal) == refusal_of(wanted),
        Ok(None) => wanted.is_none(),
        Err(_) => false,
    }
}
