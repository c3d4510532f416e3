//! Tests of `diff`: moved and equal paragraphs, each kind of line, and a refusal, in pieces.

use deb_base::{Code, Fault, Input, Refusal, VecSink, VersionText};
use deb_control::{Side, SideFault};
use deb_devices::{Pieces, SIZES};
use deb_diff::{Detail, Form, Kind, diff};
use std::alloc::Global;

const OLD: &[u8] = b"Package: gone\nVersion: 2.10-2\nArchitecture: amd64\n\n\
    Package: hello\nVersion: 2.10-2\nArchitecture: amd64\nSize: 1\n\n\
    Package: world\nVersion: 0:1.00\nArchitecture: all\nSize: 1\n";

const MOVED: &[u8] = b"version: 1.0-0\npackage: world\narchitecture: all\nsize: 01\n\n\
    Package: gone\nVersion: 2.010-2\nArchitecture: amd64\n\n\
    Package: hello\nVersion: 2.10-2\nArchitecture: amd64\nSize: 1\n";

const NEW: &[u8] = b"Package: world\nVersion: 1.0\nArchitecture: all\nDepends: aa\n\n\
    Package: fresh\nVersion: 2.10-3\nArchitecture: amd64\n\n\
    Package: hello\nVersion: 2.10-3\nArchitecture: amd64\nSize: 1\n";

const LINES: &[u8] = b"removed 1 gone 2.10-2 amd64\n\
    upgraded 3 hello 2.10-2 2.10-3 amd64 Version\n\
    changed 1 world 1.0 all Depends Size\n\
    added 2 fresh 2.10-3 amd64\n";

const VALUES: &[u8] = b"removed 1 gone 2.10-2 amd64\n\
    \x20-Architecture: amd64\n\
    \x20-Package: gone\n\
    \x20-Version: 2.10-2\n\
    upgraded 3 hello 2.10-2 2.10-3 amd64 Version\n\
    \x20-Version: 2.10-2\n\
    \x20+Version: 2.10-3\n\
    changed 1 world 1.0 all Depends Size\n\
    \x20+Depends: aa\n\
    \x20-Size: 1\n\
    added 2 fresh 2.10-3 amd64\n\
    \x20+Architecture: amd64\n\
    \x20+Package: fresh\n\
    \x20+Version: 2.10-3\n";

const SHORT: &[u8] = b"Package: aa\nVersion: 1\nArchitecture: all\nDescription: short\n long\n";

const LONG: &[u8] = b"Package: aa\nVersion: 1\nArchitecture: all\n\
    Description: short\n .\n longer\nX-List:\n one\n";

const TEXTS: &[u8] = b"changed 1 aa 1 all Description X-List\n\
    \x20-Description: short\n\
    \x20- long\n\
    \x20+Description: short\n\
    \x20+ .\n\
    \x20+ longer\n\
    \x20+X-List:\n\
    \x20+ one\n";

const LATER: &[u8] = b"added 1 gone 2.10-2 amd64\n\
    added 2 hello 2.10-2 amd64\n\
    added 3 world 1.0 all\n";

const REFUSED_LATER: &[u8] = b"Package: fresh\nVersion: 1\nArchitecture: all\n\nPackage: gone\n";

const BAD: &[u8] = b"Package: gone\nVersion: 2.10-2\nArchitecture: amd64\n\nPackage: gone\n";

const SPELLED_BACK: &[u8] = b"changed 1 world 1.0-0 all Depends Size\n\
    removed 2 fresh 2.10-3 amd64\n\
    downgraded 3 hello 2.10-3 2.10-2 amd64 Version\n\
    added 2 gone 2.010-2 amd64\n";

const SPELLED_ONE: &[u8] = b"Package: aa\nVersion:  01-0 \nArchitecture: all\n";

const SPELLED_VALUES: &[u8] = b"added 1 aa 01-0 all\n\
    \x20+Architecture: all\n\
    \x20+Package: aa\n\
    \x20+Version: 1\n";

/// What the lines have, two files, and the lines that say what changed.
struct Pair(Form, &'static [u8], &'static [u8], &'static [u8]);

const FIELDS: Form = Form {
    detail: Detail::Fields,
    versions: VersionText::Canonical,
};

const FIELDS_SPELLED: Form = Form {
    detail: Detail::Fields,
    versions: VersionText::Spelled,
};

const ALL_VALUES: Form = Form {
    detail: Detail::Values,
    versions: VersionText::Canonical,
};

const VALUES_SPELLED: Form = Form {
    detail: Detail::Values,
    versions: VersionText::Spelled,
};

const PAIRS: [Pair; 10] = [
    Pair(FIELDS, OLD, MOVED, b""),
    Pair(ALL_VALUES, OLD, MOVED, b""),
    Pair(FIELDS, b"", b"\n \n", b""),
    Pair(FIELDS, OLD, NEW, LINES),
    Pair(ALL_VALUES, OLD, NEW, VALUES),
    Pair(ALL_VALUES, SHORT, LONG, TEXTS),
    Pair(FIELDS, b"", OLD, LATER),
    Pair(VALUES_SPELLED, OLD, MOVED, b""),
    Pair(FIELDS_SPELLED, NEW, MOVED, SPELLED_BACK),
    Pair(VALUES_SPELLED, b"", SPELLED_ONE, SPELLED_VALUES),
];

/// Each pair, in pieces of several sizes.
#[test]
fn lines_of_two_files(rt: HostRuntime) {
    for pair in &PAIRS {
        for size in SIZES {
            assert!(rt; has_lines(rt.alloc(), pair, size), "pieces of {size}");
        }
    }
}

fn has_lines(alloc: Global, pair: &Pair, size: usize) -> bool {
    let Pair(form, old, new, lines) = pair;
    let (answer, written) = in_pieces(alloc, *form, old, new, size);
    answer == Ok(lines.is_empty()) && written.bytes() == *lines
}

/// Nothing is written if a file is refused; the first one is read first.
#[test]
fn refused_files(rt: HostRuntime) {
    for (old, new, side) in [
        (BAD, OLD, Side::First),
        (BAD, BAD, Side::First),
        (OLD, BAD, Side::Second),
        (OLD, REFUSED_LATER, Side::Second),
    ] {
        assert!(rt; is_refused(rt.alloc(), old, new, side), "{side:?}");
    }
}

fn is_refused(alloc: Global, old: &[u8], new: &[u8], side: Side) -> bool {
    let (answer, written) = in_pieces(alloc, ALL_VALUES, old, new, 7);
    let fault = Fault::Refused(Refusal {
        code: Code::MissingField,
        line: 5,
    });
    answer == Err(SideFault { side, fault }) && written.bytes().is_empty()
}

fn in_pieces(
    alloc: Global,
    form: Form,
    old: &[u8],
    new: &[u8],
    size: usize,
) -> (Result<bool, SideFault>, VecSink) {
    let mut reader = Pieces::new(old, size, 0);
    let mut other = Pieces::new(new, size, 0);
    let mut writer = VecSink::new(alloc);
    let answer = diff(
        alloc,
        Kind::Packages,
        form,
        &mut Input::new(&mut reader),
        &mut Input::new(&mut other),
        &mut writer,
    );
    (answer, writer)
}
