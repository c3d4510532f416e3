//! Writes the key of a version: bytes that sort as versions do.

ghost use Rattle.std.specs.Prelude.{◌≡◌, ◌+◌, ◌<◌, ◌≤◌, ◌++◌, ◌∷◌, map, length, IsTrue, OnOk, OnErr};
ghost use Rattle.std.specs.Char.{is_ascii_digit};
ghost use Rattle.std.specs.Int.Digits.{digits_of};
ghost use Rattle.std.specs.List.{list_all};
ghost use Rattle.deb_version.specs.Canonical.{Extends};
ghost use Rattle.deb_version.specs.Cuts.{cut_of};
ghost use Rattle.deb_version.specs.KeyLaws.{SortsAsItsVersion};
ghost use Rattle.deb_version.specs.Keys.{AreAscii, byte_key, component_key, count_key, number_key, part_key, version_key};
ghost use Rattle.deb_version.specs.Parts.{part_of, parts_of, value_of};
ghost use Rattle.deb_version.specs.Version.{meaning_of};

use crate::cut::Cut;
use crate::run::without_zeros;
use crate::version::Version;
use std::alloc::AllocError;

/// The first byte of each key, the number of the format.
const FORMAT: u8 = 1;

/// Ends a text, and a component.
const END: u8 = 2;

impl Version<'_> {
    /// Appends the key of the version to `out`: bytes whose order, byte by byte, is Debian's order
    /// of versions (deb-version(7), "Sorting algorithm").
    ///
    /// Two versions have the same key exactly if they are equal in that order. A database can sort
    /// and index keys, and search ranges of them. Keys keep this order if more bytes follow them,
    /// so a key can be part of a longer one. The encoding doesn't change; its first byte is the
    /// number of the format, 1.
    ///
    /// # Errors
    ///
    /// Out of memory; `out` is then unchanged.
    pub fn key_into(&self, out: &mut Vec<u8>) -> Result<(), AllocError>
        ensures ok { OnOk result
            (out.new.items ≡ out.old.items ++ version_key (meaning_of self.now)) }
        ensures unchanged { OnErr result (out.new.items ≡ out.old.items) }
        ensures sorts { SortsAsItsVersion (meaning_of self.now) }
    {
        let len = out.len();
        let written = self.append_key(out);
        if written.is_err() {
            out.truncate(len);
        }
        written
    }

    /// Appends the key, or a prefix of it if it runs out of memory.
    fn append_key(&self, out: &mut Vec<u8>) -> Result<(), AllocError>
        ensures ok { OnOk result
            (out.new.items ≡ out.old.items ++ version_key (meaning_of self.now)) }
        ensures begun { OnErr result (Extends out.old.items out.new.items) }
    {
        out.push(FORMAT)?;
        append_number(self.epoch.unwrap_or(&[]), out)?;
        append_component(self.upstream, out)?;
        append_component(self.revision.unwrap_or(&[]), out)
    }
}

/// Appends the key of an upstream version or a revision, or a prefix of it if it runs out of
/// memory.
fn append_component(component: &[u8], out: &mut Vec<u8>) -> Result<(), AllocError>
    requires { AreAscii component.now }
    ensures ok { OnOk result
        (out.new.items ≡ out.old.items ++ component_key (parts_of component.now)) }
    ensures begun { OnErr result (Extends out.old.items out.new.items) }
{
    let mut rest = component;
    loop {
        let (cut, after) = Cut::first(rest);
        append_part(cut, out)?;
        if after.is_empty() {
            out.push(END)?;
            return Ok(());
        }
        rest = after;
    }
}

/// Appends the key of a part, or a prefix of it if it runs out of memory.
fn append_part(cut: Cut<'_>, out: &mut Vec<u8>) -> Result<(), AllocError>
    requires { AreAscii cut.text.now }
    ensures ok { OnOk result
        (out.new.items ≡ out.old.items ++ part_key (part_of (cut_of cut.entry))) }
    ensures begun { OnErr result (Extends out.old.items out.new.items) }
{
    append_text(cut.text, out)?;
    out.push(END)?;
    append_number(cut.run, out)
}

/// Appends the key of each byte of a text, or of the first ones if it runs out of memory.
fn append_text(text: &[u8], out: &mut Vec<u8>) -> Result<(), AllocError>
    requires { AreAscii text.now }
    ensures ok { OnOk result (out.new.items ≡ out.old.items ++ map byte_key text.now) }
    ensures begun { OnErr result (Extends out.old.items out.new.items) }
{
    for byte in text {
        out.push(byte_key(*byte))?;
    }
    Ok(())
}

/// The key of a byte of a text: tilde sorts before the end, then come letters, then all others.
fn byte_key(byte: u8) -> u8
    requires { byte < 128 }
    ensures { result ≡ byte_key byte }
{
    match byte {
        b'~' => 1,
        _ if byte.is_ascii_alphabetic() => byte,
        _ => byte + 128,
    }
}

/// Appends the key of a number, or a prefix of it if it runs out of memory.
fn append_number(run: &[u8], out: &mut Vec<u8>) -> Result<(), AllocError>
    requires { IsTrue (list_all is_ascii_digit run.now) }
    ensures ok { OnOk result (out.new.items ≡ out.old.items ++ number_key (value_of run.now)) }
    ensures begun { OnErr result (Extends out.old.items out.new.items) }
{
    let digits = without_zeros(run);
    append_count(digits.len(), out)?;
    out.extend_from_slice(digits)
}

/// Appends the key of a count, or a prefix of it if it runs out of memory.
fn append_count(count: usize, out: &mut Vec<u8>) -> Result<(), AllocError>
    ensures ok { OnOk result (out.new.items ≡ out.old.items ++ count_key count) }
    ensures begun { OnErr result (Extends out.old.items out.new.items) }
{
    if count < 240 {
        out.push(count as u8)?;
        return Ok(());
    }
    out.push(239 + byte_count(count))?;
    append_bytes(count, out)
}

/// How many bytes a count has without leading zeros.
fn byte_count(count: usize) -> u8
    ensures value { result ≡ length (digits_of 256 count) }
    ensures bound { result ≤ 8 }
{
    if count == 0 {
        0
    } else {
        byte_count(count / 256) + 1
    }
}

/// Appends the bytes of a count without leading zeros, the most significant first, or the first of
/// them if it runs out of memory.
fn append_bytes(count: usize, out: &mut Vec<u8>) -> Result<(), AllocError>
    ensures ok { OnOk result (out.new.items ≡ out.old.items ++ digits_of 256 count) }
    ensures begun { OnErr result (Extends out.old.items out.new.items) }
{
    if count == 0 {
        return Ok(());
    }
    append_bytes(count / 256, out)?;
    out.push((count % 256) as u8)?;
    Ok(())
}
