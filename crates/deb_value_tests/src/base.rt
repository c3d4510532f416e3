//! Tests of devices that take or return a few bytes a call, and fail; and of what the body of a
//! field can be.

use deb_base::*;
use std::alloc::{AllocError, Global};
use std::io::{self, ErrorKind, Read, Write};

/// A writer that takes a few bytes a call, except at one call, where it fails or takes none.
#[derive(Drop)]
struct Slow {
    held: Vec<u8>,
    most: usize,
    calls: u64,
    bad: u64,
    takes_none: bool,
}

impl Slow {
    fn new(alloc: Global, most: usize, bad: u64, takes_none: bool) -> Slow {
        Slow {
            held: Vec::new(alloc),
            most,
            calls: 0,
            bad,
            takes_none,
        }
    }
}

impl Write for Slow {
    fn write(&mut self, bytes: &[u8]) -> io::Result<usize> {
        self.calls = self.calls.saturating_add(1);
        if self.calls == self.bad {
            if self.takes_none {
                return Ok(0);
            }
            return Err(io::Error::from(ErrorKind::Interrupted));
        }
        let taken = bytes.len().min(self.most);
        self.held.extend_from_slice(&bytes[..taken])?;
        Ok(taken)
    }

    fn flush(&mut self) -> io::Result<()> {
        Ok(())
    }
}

/// How many bytes a write takes, the number of the write that is bad, what is answered, what was
/// written, and how many writes there were.
struct Written(usize, u64, Result<(), Fault>, &'static [u8], u64);

const WRITTEN: [Written; 8] = [
    Written(9, 2, Ok(()), b"abcdef", 1),
    Written(1, 7, Ok(()), b"abcdef", 6),
    Written(4, 3, Ok(()), b"abcdef", 2),
    Written(9, 1, Err(Fault::Write), b"", 1),
    Written(4, 1, Err(Fault::Write), b"", 1),
    Written(4, 2, Err(Fault::Write), b"abcd", 2),
    Written(1, 3, Err(Fault::Write), b"ab", 3),
    Written(1, 6, Err(Fault::Write), b"abcde", 6),
];

/// A prefix is written up to the bad write, which is the last one.
#[test]
fn bytes_are_put_until_a_write_fails(rt: HostRuntime) {
    for row in &WRITTEN {
        let is_right = is_written(rt.alloc(), row, false) && is_written(rt.alloc(), row, true);
        assert!(rt;
            is_right,
            "{} bytes a write, of which {} is bad",
            row.0, row.1
        );
    }
}

fn is_written(alloc: Global, row: &Written, takes_none: bool) -> bool {
    let Written(most, bad, answer, held, calls) = row;
    let mut writer = Slow::new(alloc, *most, *bad, takes_none);
    let told = put_all(&mut Output::new(&mut writer), b"abcdef");
    told == *answer && writer.held.as_slice() == *held && writer.calls == *calls
}

/// A writer that takes none of some bytes has failed; none of no bytes is all of them.
#[test]
fn a_write_that_takes_nothing(rt: HostRuntime) {
    let mut writer = Slow::new(rt.alloc(), 0, 0, false);
    let mut out = Output::new(&mut writer);
    assert!(rt; put_all(&mut out, b"") == Ok(()));
    assert!(rt; out.write(b"") == Ok(0));
    assert!(rt; out.write(b"a") == Err(Failed));
}

/// A reader that gives a byte a call, except at one call, where it fails.
#[derive(Drop)]
struct Gap<'a> {
    rest: &'a [u8],
    calls: u64,
    bad: u64,
}

impl Read for Gap<'_> {
    fn read(&mut self, buffer: &mut [u8]) -> io::Result<usize> {
        self.calls = self.calls.saturating_add(1);
        if self.calls == self.bad {
            return Err(io::Error::from(ErrorKind::Interrupted));
        }
        let most = buffer.len().min(1);
        self.rest.read(&mut buffer[..most])
    }
}

/// An interrupted read has failed and isn't tried again; the next one goes on.
#[test]
fn each_read_is_one_call(rt: HostRuntime) {
    let mut reader = Gap {
        rest: b"ab",
        calls: 0,
        bad: 2,
    };
    let mut input = Input::new(&mut reader);
    let mut room = [0u8; 7];
    for wanted in [Ok(1), Err(Failed), Ok(1), Ok(0), Ok(0)] {
        assert!(rt; input.read(&mut room) == wanted);
    }
    assert!(rt; room[0] == b'b' && reader.calls == 5);
}

/// A text, and whether it can be the body of a field.
const BODIES: [(&[u8], bool); 20] = [
    (b"", true),
    (b"aa", true),
    (b"short  \n one\t\n .\n\ttwo", true),
    (b"\n aa", true),
    (b"a\rb\x00", true),
    (b"caf\xc3\xa9", true),
    (b" a", false),
    (b"\ta", false),
    (b"a ", false),
    (b"a\t", false),
    (b"a\n", false),
    (b"\n", false),
    (b"a\nb", false),
    (b"a\n \n b", false),
    (b"a\n\t \n b", false),
    (b"a\n\n b", false),
    (b"caf\xc3", false),
    (b"\xed\xa0\x80", false),
    (b"\xc0\x80", false),
    (b"\xf4\x90\x80\x80", false),
];

#[test]
fn bodies_of_fields(rt: HostRuntime) {
    for (body, wanted) in BODIES {
        assert!(rt; is_body(body) == wanted, "{body:?}");
    }
}

/// Names of fields in Debian's indexes.
const NAMES: [&'static str; 29] = [
    "Architecture",
    "Binary",
    "Breaks",
    "Build-Depends",
    "Build-Depends-Indep",
    "Built-Using",
    "Checksums-Sha256",
    "Conflicts",
    "Depends",
    "Description",
    "Description-md5",
    "Filename",
    "Homepage",
    "Installed-Size",
    "MD5sum",
    "Maintainer",
    "Multi-Arch",
    "Package",
    "Priority",
    "Provides",
    "Recommends",
    "SHA256",
    "Section",
    "Size",
    "Source",
    "Status",
    "Suggests",
    "Tag",
    "Version",
];

/// No clause says that a usual name is found at once.
#[test]
fn usual_names_are_found_near_the_front(rt: HostRuntime) {
    for name in &NAMES {
        assert!(rt;
            matches!(is_found(rt.alloc(), name.as_bytes()), Ok(true)),
            "{name}"
        );
    }
}

fn is_found(alloc: Global, name: &[u8]) -> Result<bool, AllocError> {
    let mut text = Vec::new(alloc);
    text.extend_from_slice(name)?;
    text.extend_from_slice(b": a value of 32 bytes, or of more")?;
    let found = FieldId::near_front(text.as_slice());
    Ok(found.is_some_and(|front| {
        front.len == name.len() && front.id.row() == FieldId::of(name).row()
    }))
}
