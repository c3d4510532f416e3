//! The readers of the program: files by their paths, and standard input.

ghost use Rattle.std.specs.Prelude.{⊤, None};

use crate::opens::Opens;
use crate::unopened::Unopened;
use deb_base::Input;
use std::fs::{self, File};
use std::io::{self, ErrorKind, Read, Stdin};

/// A file of the system, or standard input.
#[derive(Drop)]
pub(crate) enum Reader {
    Opened(File),
    Standard(Stdin),
}

impl Read for Reader {
    fn read(&mut self, buffer: &mut [u8]) -> io::Result<usize> {
        match self {
            Reader::Opened(file) => file.read(buffer),
            Reader::Standard(stdin) => stdin.read(buffer),
        }
    }
}

/// The file of a path, or standard input for `-`. A directory can be opened, but not read.
pub(crate) fn opened(rt: &HostRuntime, path: &str) -> Result<Reader, Unopened> {
    if path == "-" {
        return Ok(Reader::Standard(rt.stdin()));
    }
    match open_file(rt, path) {
        Ok(file) => Ok(Reader::Opened(file)),
        Err(error) => Err(unopened(&error)),
    }
}

/// The file of a path, which can be read twice.
fn opened_regular(rt: &HostRuntime, path: &str) -> Result<Reader, Unopened> {
    match is_regular(rt, path) {
        Ok(true) => opened(rt, path),
        Ok(false) => Err(Unopened::NotRegular),
        Err(error) => Err(unopened(&error)),
    }
}

/// Whether the file of a path is a regular file. Its path is asked, since opening a pipe waits.
fn is_regular(rt: &HostRuntime, path: &str) -> io::Result<bool> {
    if path == "-" {
        return Ok(false);
    }
    let metadata = fs::metadata(rt, path)?;
    if metadata.is_dir() {
        return Err(io::Error::from(ErrorKind::IsADirectory));
    }
    Ok(metadata.is_file())
}

fn open_file(rt: &HostRuntime, path: &str) -> io::Result<File> {
    let file = File::open(rt, path)?;
    if file.metadata()?.is_dir() {
        return Err(io::Error::from(ErrorKind::IsADirectory));
    }
    Ok(file)
}

/// Why a file can't be opened, by the system's error.
fn unopened(error: &io::Error) -> Unopened {
    match error.kind() {
        ErrorKind::NotFound => Unopened::NotFound,
        ErrorKind::PermissionDenied => Unopened::PermissionDenied,
        ErrorKind::NotADirectory => Unopened::NotADirectory,
        ErrorKind::IsADirectory => Unopened::IsADirectory,
        ErrorKind::FilesystemLoop => Unopened::FilesystemLoop,
        ErrorKind::InvalidFilename => Unopened::InvalidFilename,
        _ => match error.raw_os_error() {
            Some(number) if number > 0 => Unopened::System(number as u64),
            _ => Unopened::Other,
        },
    }
}

/// The files of the system. A path that isn't UTF-8 can't be opened, and standard input can be
/// opened once. If files are to be read twice, only regular files can be opened.
#[derive(Drop)]
pub(crate) struct SystemFiles<'a> {
    rt: &'a HostRuntime,
    failures: u64,
    /// Whether only regular files can be opened.
    is_regular: bool,
    /// Whether standard input was opened before.
    was_input_opened: bool,
    /// How many openings were tried, up to the last number.
    tried: u64,
    /// Why the last opening that failed did.
    unopened: Option<Unopened>,
}

impl<'a> SystemFiles<'a> {
    ghost use Rattle.std.specs.Prelude.{◌≡◌};

    /// Returns the files of the system, with no failed opening.
    pub(crate) fn new(rt: &'a HostRuntime) -> SystemFiles<'a> {
        SystemFiles {
            rt,
            failures: 0,
            is_regular: false,
            was_input_opened: false,
            tried: 0,
            unopened: None,
        }
    }

    /// Returns the files of the system that can be read twice, with no failed opening.
    pub(crate) fn regular(rt: &'a HostRuntime) -> SystemFiles<'a> {
        SystemFiles {
            rt,
            failures: 0,
            is_regular: true,
            was_input_opened: false,
            tried: 0,
            unopened: None,
        }
    }

    /// Returns the files of the system, with no failed opening, after the file of a path was read.
    pub(crate) fn after_reading(rt: &'a HostRuntime, path: &str) -> SystemFiles<'a> {
        SystemFiles {
            rt,
            failures: 0,
            is_regular: false,
            was_input_opened: path == "-",
            tried: 0,
            unopened: None,
        }
    }

    /// Returns how many openings were tried.
    pub(crate) fn tried(&self) -> u64 {
        self.tried
    }

    /// Returns why the last opening that failed did, if one has.
    pub(crate) fn unopened(&self) -> Option<Unopened> {
        self.unopened
    }

    /// Opens the file of a path.
    fn reader(&mut self, path: &[u8]) -> Result<Reader, Unopened>
        ensures { self.new.failures ≡ self.old.failures }
    {
        let Ok(path) = str::from_utf8(path) else {
            return Err(Unopened::NotUtf8);
        };
        if self.is_regular {
            return opened_regular(self.rt, path);
        }
        if path == "-" {
            if self.was_input_opened {
                return Err(Unopened::ReadBefore);
            }
            self.was_input_opened = true;
        }
        opened(self.rt, path)
    }
}

impl Opens for SystemFiles<'_> {
    type Reader = Input<Reader>;

    ghost text = { λ files path. None };

    ghost failures = { λ files. files.failures };

    ghost opens = { λ files path opened after. ⊤ };

    fn open(&mut self, path: &[u8]) -> Result<Input<Reader>, Unopened> {
        if self.failures == u64::MAX {
            return Err(Unopened::Other);
        }
        self.tried = self.tried.saturating_add(1);
        match self.reader(path) {
            Ok(reader) => Ok(Input::new(reader)),
            Err(why) => {
                self.failures += 1;
                self.unopened = Some(why);
                Err(why)
            }
        }
    }
}
