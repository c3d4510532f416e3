//! Sources of the bytes that a reader was fed: those that were kept, and then those of a piece.

ghost use Rattle.std.specs.Prelude.{◌≡◌, ◌≤◌, ◌<◌, ◌++◌, IfOk, Some, length};
ghost use Rattle.deb_base.specs.Devices.{last_count};

use crate::kept::{Held, Part};
use deb_base::{Failed, Source};
use std::alloc::{AllocError, Global};

/// The bytes at the end of a file. No read of them fails.
#[derive(Clone, Copy)]
pub(crate) struct LastPiece<'a> {
    held: Held<'a>,
    piece: Part<'a>,
}

impl<'a> LastPiece<'a> {
    ghost use Rattle.debctl_ffi.specs.KeptTexts.{held_text};

    /// The source of what was kept, and then of the last piece.
    pub(crate) fn new(held: Held<'a>, piece: &'a [u8]) -> LastPiece<'a>
        ensures left { ⟦<LastPiece<'a> as Source>⟧.left result
            ≡ Some (held_text held.entry ++ piece.now) }
    {
        LastPiece {
            held,
            piece: Part::new(piece),
        }
    }
}

impl Source for LastPiece<'_> {
    ghost use Rattle.deb_base.specs.Memory.{none_counts_to_last};
    ghost use Rattle.debctl_ffi.specs.KeptTexts.{held_text};

    ghost left = { λ source. Some (held_text source.held ++ source.piece.bytes.now) };

    ghost failures = { λ source. 0 };

    fn read(&mut self, buffer: &mut [u8]) -> Result<usize, Failed> {
        if !self.held.is_empty() {
            return Ok(self.held.take(buffer));
        }
        Ok(self.piece.take(buffer))
    }

    ghost counts_to_last = { λ source. none_counts_to_last };
}

/// Bytes of a file after which others may follow. A read that would take the last of them fails: so
/// no read is at the end of the file.
#[derive(Clone, Copy)]
pub(crate) struct Piece<'a> {
    held: Held<'a>,
    piece: &'a [u8],
    failures: u64,
    ghost some: { 0 < length piece.now },
    ghost counts_to_last: { failures ≤ last_count },
}

impl<'a> Piece<'a> {
    ghost use Rattle.debctl_ffi.specs.KeptTexts.{held_text};

    /// The source of what was kept, and then of a piece.
    pub(crate) fn new(held: Held<'a>, piece: &'a [u8]) -> Piece<'a>
        requires some { 0 < length piece.now }
        ensures left { ⟦<Piece<'a> as Source>⟧.left result
            ≡ Some (held_text held.entry ++ piece.now) }
    {
        Piece {
            held,
            piece,
            failures: 0,
        }
    }

    /// The bytes that weren't read. Out of memory also if something that was kept wasn't: a
    /// paragraph that ends in the piece comes after it.
    pub(crate) fn rest(&self, alloc: Global) -> Result<Vec<u8>, AllocError>
        ensures left { IfOk result
            (λ rest. ⟦<Piece<'a> as Source>⟧.left self.now ≡ Some rest.items) }
        ensures some { IfOk result (λ rest. 0 < length rest.items) }
    {
        if !self.held.is_empty() {
            return Err(AllocError);
        }
        Vec::from_slice(alloc, self.piece)
    }
}

impl Source for Piece<'_> {
    ghost use Rattle.debctl_ffi.specs.KeptTexts.{held_text};

    ghost left = { λ source. Some (held_text source.held ++ source.piece.now) };

    ghost failures = { λ source. source.failures };

    fn read(&mut self, buffer: &mut [u8]) -> Result<usize, Failed> {
        if self.failures == u64::MAX {
            return Err(Failed);
        }
        if !self.held.is_empty() {
            return Ok(self.held.take(buffer));
        }
        let count = (self.piece.len() - 1).min(buffer.len());
        if count == 0 {
            self.failures += 1;
            return Err(Failed);
        }
        buffer[..count].copy_from_slice(&self.piece[..count]);
        self.piece = &self.piece[count..];
        Ok(count)
    }

    ghost counts_to_last = { λ source. source.counts_to_last };
}
