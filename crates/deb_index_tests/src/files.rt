//! Tests of indexes of several files, and of those without the packages of some names: their
//! packages, which file each is in, and the lines that name it.
//!
//! Each function makes one large value, as in `index`.

use crate::index::counts_met;
use deb_base::{Code, Fault, Input, Output, Refusal, VersionText};
use deb_index::{DetailedReport, Index, Members, NoKeeper, Package, Question, Report};
use std::alloc::Global;
use std::io::Write;
use std::test::Fail;

const FIRST: &[u8] = b"Package: hello\nVersion: 1\nArchitecture: amd64\nProvides: vv\n\n\
    Package: world\nVersion: 1.0-0\nArchitecture: all\n";

const STATUS: &[u8] =
    b"Package: vv\nStatus: install ok installed\nVersion: 02\nArchitecture: all\n\n\
    Package: ww\nStatus: deinstall ok config-files\nVersion: 1\n";

/// The index of FIRST, a file without packages, and the installed packages of STATUS.
fn three_files(alloc: Global) -> Option<Index> {
    match Index::read(alloc, &mut Input::new(FIRST)) {
        Ok(index) => with_two_more(alloc, index),
        Err(_) => None,
    }
}

fn with_two_more(alloc: Global, index: Index) -> Option<Index> {
    match index.read_more(alloc, &mut Input::new(b"\n".as_slice())) {
        Ok(index) => with_status(alloc, index),
        Err(_) => None,
    }
}

fn with_status(alloc: Global, index: Index) -> Option<Index> {
    let mut status = Input::new(STATUS);
    match index.read_more_members(alloc, &mut status, Members::Installed, &mut NoKeeper) {
        Ok(index) => Some(index),
        Err(_) => None,
    }
}

#[test]
fn packages_follow_one_another(rt: HostRuntime) {
    assert!(rt; are_three(rt.alloc()));
}

fn are_three(alloc: Global) -> bool {
    match three_files(alloc) {
        Some(index) => lists_three(&index),
        None => false,
    }
}

fn lists_three(index: &Index) -> bool {
    index.len() == 3
        && index.files() == 3
        && index.packages(b"vv") == [3].as_slice()
        && index.providers(b"vv") == [1].as_slice()
        && is_of_status(index.package(3))
}

/// Whether a package is the first of STATUS.
fn is_of_status(package: Option<Package<'_>>) -> bool {
    match package {
        Some(package) => package.line() == 1 && package.spelled_version() == b"02".as_slice(),
        None => false,
    }
}

#[test]
fn files_of_packages(rt: HostRuntime) {
    assert!(rt; are_in_files(rt.alloc()));
}

fn are_in_files(alloc: Global) -> bool {
    match three_files(alloc) {
        Some(index) => {
            index.file_of(0).is_none()
                && index.file_of(1) == Some(1)
                && index.file_of(2) == Some(1)
                && index.file_of(3) == Some(3)
                && index.file_of(4).is_none()
        }
        None => false,
    }
}

#[test]
fn lines_name_files(rt: HostRuntime) {
    assert!(rt; are_named(rt.alloc()));
}

fn are_named(alloc: Global) -> bool {
    match three_files(alloc) {
        Some(index) => {
            reports(
                alloc,
                &index,
                b"vv",
                b"met vv\n 1 hello 1 amd64 @1\n 3 vv 02 all @3\n",
            ) && explains(
                alloc,
                &index,
                b"vv (>= 3)",
                b"unmet vv (>= 3)\n\
                \x20vv (>= 3): 1 hello 1 amd64 is provided without a version @1\n\
                \x20vv (>= 3): 3 vv 02 all is earlier @3\n",
            )
        }
        None => false,
    }
}

#[test]
fn one_file_is_not_named(rt: HostRuntime) {
    assert!(rt; is_not_named(rt.alloc()));
}

fn is_not_named(alloc: Global) -> bool {
    match Index::read(alloc, &mut Input::new(FIRST)) {
        Ok(index) => {
            reports(alloc, &index, b"vv", b"met vv\n 1 hello 1 amd64\n")
                && explains(
                    alloc,
                    &index,
                    b"world (<< 1)",
                    b"unmet world (<< 1)\n world (<< 1): 2 world 1.0-0 all isn't earlier\n",
                )
        }
        Err(_) => false,
    }
}

#[test]
fn a_refusal_is_of_the_further_file(rt: HostRuntime) {
    let refusal = Refusal {
        code: Code::NoColon,
        line: 2,
    };
    assert!(rt; fault_after(rt.alloc()) == Some(Fault::Refused(refusal)));
}

/// The fault of a further file.
fn fault_after(alloc: Global) -> Option<Fault> {
    match Index::read(alloc, &mut Input::new(FIRST)) {
        Ok(index) => fault_of_more(alloc, index),
        Err(_) => None,
    }
}

fn fault_of_more(alloc: Global, index: Index) -> Option<Fault> {
    let mut more = Input::new(b"Package: aa\nVersion\n".as_slice());
    index.read_more(alloc, &mut more).err()
}

/// The index of no file, and of a first file after none.
#[test]
fn an_index_of_no_file(rt: HostRuntime) {
    assert!(rt; is_empty(rt.alloc()));
    assert!(rt; is_first_file(rt.alloc()));
}

fn is_empty(alloc: Global) -> bool {
    match Index::new(alloc) {
        Ok(index) => {
            index.len() == 0 && index.files() == 0 && reports(alloc, &index, b"vv", b"unmet vv\n")
        }
        Err(_) => false,
    }
}

fn is_first_file(alloc: Global) -> bool {
    match Index::new(alloc) {
        Ok(index) => is_first_after(alloc, index),
        Err(_) => false,
    }
}

fn is_first_after(alloc: Global, index: Index) -> bool {
    match index.read_more(alloc, &mut Input::new(FIRST)) {
        Ok(index) => {
            index.files() == 1 && reports(alloc, &index, b"vv", b"met vv\n 1 hello 1 amd64\n")
        }
        Err(_) => false,
    }
}

/// The index of the three files without the packages of some names.
fn left(alloc: Global, names: &[&[u8]]) -> Option<Index> {
    match three_files(alloc) {
        Some(index) => left_of(alloc, index, names),
        None => None,
    }
}

fn left_of(alloc: Global, index: Index, names: &[&[u8]]) -> Option<Index> {
    match index.without(alloc, names) {
        Ok(index) => Some(index),
        Err(_) => None,
    }
}

/// What is left is numbered anew, with its lines, spelled versions and files.
#[test]
fn packages_that_are_left(rt: HostRuntime) {
    assert!(rt; are_left(rt.alloc()));
}

fn are_left(alloc: Global) -> bool {
    match left(alloc, &[b"zz", b"hello", b"hell"]) {
        Some(index) => {
            are_two(&index)
                && reports(
                    alloc,
                    &index,
                    b"vv | world",
                    b"met vv | world\n 1 world 1.0-0 all @1\n 2 vv 02 all @3\n",
                )
        }
        None => false,
    }
}

fn are_two(index: &Index) -> bool {
    index.len() == 2
        && index.files() == 3
        && index.packages(b"vv") == [2].as_slice()
        && index.packages(b"hello").is_empty()
        && index.providers(b"vv").is_empty()
        && is_of_status(index.package(2))
}

/// A package that provides a name is left where that name's packages are left out.
#[test]
fn a_provided_name_is_left(rt: HostRuntime) {
    assert!(rt; is_left(rt.alloc()));
}

fn is_left(alloc: Global) -> bool {
    match left(alloc, &[b"vv"]) {
        Some(index) => {
            index.packages(b"vv").is_empty()
                && reports(alloc, &index, b"vv", b"met vv\n 1 hello 1 amd64 @1\n")
        }
        None => false,
    }
}

#[test]
fn all_packages_and_none(rt: HostRuntime) {
    assert!(rt; are_none_left(rt.alloc()));
    assert!(rt; are_all_left(rt.alloc()));
}

fn are_none_left(alloc: Global) -> bool {
    match left(alloc, &[b"vv", b"hello", b"world"]) {
        Some(index) => {
            index.len() == 0 && index.files() == 3 && reports(alloc, &index, b"vv", b"unmet vv\n")
        }
        None => false,
    }
}

fn are_all_left(alloc: Global) -> bool {
    match left(alloc, &[]) {
        Some(index) => lists_three(&index),
        None => false,
    }
}

/// Twenty packages of one name, each after one of another; both provide vv in their version.
#[test]
fn many_that_are_left(rt: HostRuntime) -> Result<(), Fail> {
    let file = many_packages(rt.alloc()).ok_or("memory")?;
    assert!(rt; are_many_left(rt.alloc(), &file));
    Ok(())
}

fn many_packages(alloc: Global) -> Option<Vec<u8>> {
    let mut file = Vec::new(alloc);
    for number in 1..21u32 {
        write!(
            file,
            "Package: bb\nVersion: {number}\nArchitecture: all\nProvides: vv (= {number})\n\n\
            Package: aa\nVersion: {number}\nArchitecture: all\nProvides: vv (= {number})\n\n"
        )
        .ok()?;
    }
    Some(file)
}

fn are_many_left(alloc: Global, file: &[u8]) -> bool {
    match Index::read(alloc, &mut Input::new(file)) {
        Ok(index) => are_aa_left(alloc, index),
        Err(_) => false,
    }
}

fn are_aa_left(alloc: Global, index: Index) -> bool {
    match left_of(alloc, index, &[b"bb"]) {
        Some(index) => {
            counts_met(alloc, &index, b"vv (>= 16)", 16, 5)
                && counts_met(alloc, &index, b"aa (<< 4)", 1, 3)
                && counts_met(alloc, &index, b"bb (>= 1)", 1, 0)
        }
        None => false,
    }
}

/// Whether the report on a relation, whose lines name files, is this text.
fn reports(alloc: Global, index: &Index, asked: &[u8], text: &[u8]) -> bool {
    match Question::parse(alloc, b"amd64", &[], asked) {
        Ok(question) => reports_on(alloc, index, &question, text),
        Err(_) => false,
    }
}

fn reports_on(alloc: Global, index: &Index, question: &Question<'_>, text: &[u8]) -> bool {
    match index.ask(alloc, question) {
        Ok(report) => writes(alloc, &report, text),
        Err(_) => false,
    }
}

fn writes(alloc: Global, report: &Report<'_>, text: &[u8]) -> bool {
    let mut held = Vec::new(alloc);
    let answer = report.write_with_files(VersionText::Spelled, &mut Output::new(&mut held));
    answer == Ok(()) && held.as_slice() == text
}

/// Whether the report with reasons, whose lines name files, is this text.
fn explains(alloc: Global, index: &Index, asked: &[u8], text: &[u8]) -> bool {
    match Question::parse(alloc, b"amd64", &[], asked) {
        Ok(question) => explains_on(alloc, index, &question, text),
        Err(_) => false,
    }
}

fn explains_on(alloc: Global, index: &Index, question: &Question<'_>, text: &[u8]) -> bool {
    match index.ask_why_with_files(alloc, question, VersionText::Spelled) {
        Ok(report) => writes_why(alloc, &report, text),
        Err(_) => false,
    }
}

fn writes_why(alloc: Global, report: &DetailedReport<'_>, text: &[u8]) -> bool {
    let mut held = Vec::new(alloc);
    let answer = report.write_with_files(VersionText::Spelled, &mut Output::new(&mut held));
    answer == Ok(()) && held.as_slice() == text
}
