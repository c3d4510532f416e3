//! Iterates over the words of a text.

ghost use Rattle.std.specs.Prelude.{◌≡◌, ◌+◌, ◌≤◌, ◌++◌, length, take, OnOk, OnErr, Some, MatchOption, List, [], ◌∷◌, not};
ghost use Rattle.std.specs.List.{prefix_len};
ghost use Rattle.deb_version.specs.Canonical.{Extends};
ghost use Rattle.deb_relation.specs.Lanes.{first_set};
ghost use Rattle.deb_field.specs.Words.{is_white, words_of, words_text};

use std::alloc::AllocError;
use std::simd::prelude::*;

/// How many bytes are looked at in one step.
const LANES: usize = 16;

/// The words of a text, in order: its runs of bytes other than spaces, tabs and newlines.
#[derive(Clone, Copy, Debug)]
pub struct Words<'a> {
    rest: &'a [u8],
}

impl<'a> Words<'a> {
    /// The words of a text.
    pub(crate) fn of(text: &'a [u8]) -> Words<'a>
        ensures { result.rest.now ≡ text.now }
    {
        Words { rest: text }
    }
}

impl<'a> Iterator for Words<'a> {
    ghost use Rattle.std.specs.Iterator.{YieldsFirstRef, item_count};
    ghost use Rattle.deb_field.specs.Shown.{words_left};

    type Item = &'a [u8];

    ghost next_gives = { YieldsFirstRef words_left };

    ghost remaining = { item_count words_left };

    fn next(&mut self) -> Option<&'a [u8]> {
        let (word, rest) = cut_word(self.rest)?;
        self.rest = rest;
        Some(word)
    }
}

/// The first word of a text, and what follows it.
fn cut_word(text: &[u8]) -> Option<(&[u8], &[u8])>
    ensures { MatchOption result (words_of text.now ≡ [])
        (λ cut. words_of text.now ≡ cut.0.now ∷ words_of cut.1.now) }
{
    let text = &text[leading_white(text)..];
    let len = word_len(text);
    if len == 0 {
        None
    } else {
        Some((&text[..len], &text[len..]))
    }
}

/// With how many bytes of white space a text begins.
fn leading_white(text: &[u8]) -> usize
    ensures value { result ≡ prefix_len is_white text.now }
    ensures bound { result ≤ length text.now }
{
    text.iter().take_while(|byte| is_white(**byte)).count()
}

/// With how many bytes other than white space a text begins.
fn word_len(text: &[u8]) -> usize
    ensures value { result ≡ prefix_len (λ b. not (is_white b)) text.now }
    ensures bound { result ≤ length text.now }
{
    let mut rest = text;
    while rest.len() >= LANES {
        let len = front_len(rest);
        if len < LANES {
            return text.len() - rest.len() + len;
        }
        rest = &rest[LANES..];
    }
    text.len() - rest.len() + rest_len(rest)
}

/// How many of the first `LANES` bytes, from the first, are other than white space.
#[inline(always)]
fn front_len(text: &[u8]) -> usize
    requires { LANES ≤ length text.now }
    ensures { result ≡ prefix_len (λ b. not (is_white b)) (take LANES text.now) }
{
    let bytes = u8x16::from_slice(text);
    let stops = bytes.simd_eq(u8x16::splat(b' '))
        | bytes.simd_eq(u8x16::splat(b'\n'))
        | bytes.simd_eq(u8x16::splat(b'\t'));
    first_set(stops.to_bitmask())
}

/// The number of the lowest bit that is set, or `LANES`.
#[inline(always)]
fn first_set(mask: u64) -> usize
    ensures { result ≡ first_set mask }
{
    if mask == 0 {
        LANES
    } else {
        mask.trailing_zeros() as usize
    }
}

/// The same of a whole text, byte by byte.
fn rest_len(text: &[u8]) -> usize
    ensures value { result ≡ prefix_len (λ b. not (is_white b)) text.now }
    ensures bound { result ≤ length text.now }
{
    text.iter().take_while(|byte| !is_white(**byte)).count()
}

/// Whether a byte is a space, a tab or a newline.
fn is_white(byte: u8) -> bool
    ensures { result ≡ is_white byte }
{
    matches!(byte, b' ' | b'\t' | b'\n')
}

/// How many bytes the words of a text have with one space between two of them.
pub(crate) fn words_len(text: &[u8]) -> u64
    ensures { result ≡ length (words_text (words_of text.now)) }
{
    let mut words = Words::of(text);
    let Some(first) = words.next() else {
        return 0;
    };
    let mut len = first.len() as u64;
    for word in words {
        len += 1 + word.len() as u64;
    }
    len
}

/// Appends the words of a text with one space between two of them. After out of memory `out` is
/// unchanged.
pub(crate) fn words_into(text: &[u8], out: &mut Vec<u8>) -> Result<(), AllocError>
    ensures ok { OnOk result (out.new.items ≡ out.old.items ++ words_text (words_of text.now)) }
    ensures unchanged { OnErr result (out.new.items ≡ out.old.items) }
{
    let len = out.len();
    let written = append_words(text, out);
    if written.is_err() {
        out.truncate(len);
    }
    written
}

/// Appends the words of a text with one space between two of them, or a part of that after out of
/// memory.
fn append_words(text: &[u8], out: &mut Vec<u8>) -> Result<(), AllocError>
    ensures ok { OnOk result (out.new.items ≡ out.old.items ++ words_text (words_of text.now)) }
    ensures begun { OnErr result (Extends out.old.items out.new.items) }
{
    let mut words = Words::of(text);
    let Some(first) = words.next() else {
        return Ok(());
    };
    out.extend_from_slice(first)?;
    for word in words {
        out.push(b' ')?;
        out.extend_from_slice(word)?;
    }
    Ok(())
}
