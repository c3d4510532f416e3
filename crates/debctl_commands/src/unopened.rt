//! Why a file can't be opened.

ghost use Rattle.std.specs.Prelude.{◌≡◌, ◌∷◌, ◌++◌, [], IfErr};
ghost use Rattle.deb_base.specs.Bodies.{newline};
ghost use Rattle.deb_base.specs.Devices.{write_failures_after, Puts};
ghost use Rattle.deb_base.specs.declared.fault.Fault.TheVariants.{Read};
ghost use Rattle.debctl_commands.specs.Unopened.{unopened_words};

use deb_base::{Fault, Sink, put_all, put_pieces};
use itoa::Buffer;

/// Why a file can't be opened, as the system reports it.
#[derive(Clone, Copy)]
pub enum Unopened {
    /// There is no file of that name.
    NotFound,
    /// The file may not be read.
    PermissionDenied,
    /// A part of the path before the last one isn't a directory.
    NotADirectory,
    /// The file is a directory, which can be opened but has no bytes.
    IsADirectory,
    /// There are too many symbolic links, perhaps a loop.
    FilesystemLoop,
    /// The path, or a part of it, is too long.
    InvalidFilename,
    /// The path isn't UTF-8; the standard library opens no such path.
    NotUtf8,
    /// It is standard input, which was opened before.
    ReadBefore,
    /// It isn't a regular file, and has to be read twice.
    NotRegular,
    /// Another error of the system, by its number.
    System(u64),
    /// Another error, which isn't the system's.
    Other,
}

impl Unopened {
    /// Writes it in words.
    fn write_words<W: Sink>(self, out: &mut W) -> Result<(), Fault>
        ensures written { Puts (W.held out.old) (W.held out.new) result (unopened_words self) }
        ensures fault { IfErr result (λ fault. fault ≡ Fault.Write) }
        ensures counts_failure { W.failures out.new ≡ write_failures_after (W.failures out.old)
            result }
    {
        match self {
            Unopened::NotFound => put_all(out, b"no such file or directory"),
            Unopened::PermissionDenied => put_all(out, b"permission denied"),
            Unopened::NotADirectory => put_all(out, b"not a directory"),
            Unopened::IsADirectory => put_all(out, b"is a directory"),
            Unopened::FilesystemLoop => put_all(out, b"too many levels of symbolic links"),
            Unopened::InvalidFilename => put_all(out, b"file name too long"),
            Unopened::NotUtf8 => put_all(out, b"the path isn't UTF-8"),
            Unopened::ReadBefore => put_all(out, b"standard input was read before"),
            Unopened::NotRegular => put_all(out, b"isn't a regular file"),
            Unopened::System(number) => {
                let mut text = Buffer::new();
                put_pieces(out, &[b"os error ", text.format(number).as_bytes()])
            }
            Unopened::Other => put_all(out, b"other error"),
        }
    }

    /// Writes it in words after others.
    #[tactic(auto, using(deb_base::proofs::Writes::puts))]
    pub(crate) fn write_after<W: Sink>(self, words: &[u8], out: &mut W) -> Result<(), Fault>
        ensures written { Puts (W.held out.old) (W.held out.new) result
            (words.now ++ unopened_words self) }
        ensures fault { IfErr result (λ fault. fault ≡ Fault.Write) }
        ensures counts_failure { W.failures out.new ≡ write_failures_after (W.failures out.old)
            result }
    {
        put_all(out, words)?;
        self.write_words(out)
    }

    /// Writes it in words after a prefix, and the end of the line.
    #[tactic(auto, using(deb_base::proofs::Writes::puts))]
    pub(crate) fn write_behind<W: Sink>(self, front: &[u8], out: &mut W) -> Result<(), Fault>
        ensures written { Puts (W.held out.old) (W.held out.new) result
            (front.now ++ (unopened_words self ++ newline ∷ [])) }
        ensures fault { IfErr result (λ fault. fault ≡ Fault.Write) }
        ensures counts_failure { W.failures out.new ≡ write_failures_after (W.failures out.old)
            result }
    {
        put_all(out, front)?;
        self.write_words(out)?;
        put_all(out, b"\n")
    }
}

impl From<Unopened> for Fault {
    ghost from_gives = { λ _ fault. fault ≡ Read };

    /// A file that can't be opened can't be read.
    fn from(_why: Unopened) -> Fault {
        Fault::Read
    }
}
