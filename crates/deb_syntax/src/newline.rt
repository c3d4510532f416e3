//! Finds line ends, most of which are near.

ghost use Rattle.std.specs.Prelude.{◌≡◌, ◌+◌, ◌<◌, ◌≤◌, ◌==◌, ℕ, false, length, slice_index, if◌then◌else◌};
ghost use Rattle.std.specs.Int.{trailing_zeros, w64};
ghost use Rattle.memchr.specs.Find.{IsFirstByte, is_byte};
ghost use Rattle.deb_base.specs.Bodies.{newline};

use memchr::memchr;
use std::simd::prelude::*;

/// How many bytes are looked at in one step.
const LANES: usize = 32;

/// How many bytes are looked at in such steps. The search that is fast in long texts takes longer
/// to begin.
const NEAR: usize = 128;

/// The offset of the first newline.
#[inline(always)]
pub(crate) fn first_newline(text: &[u8]) -> Option<usize>
    ensures { IsFirstByte (is_byte newline) text.now result }
{
    let mut at = 0;
    while at < NEAR && text.len() - at >= LANES {
        let len = front_len(text, at);
        if len < LANES {
            return Some(at + len);
        }
        at += LANES;
    }
    match memchr(b'\n', &text[at..]) {
        Some(more) => Some(at + more),
        None => None,
    }
}

/// How many of the `LANES` bytes from `at` on come before the first newline among them.
#[inline(always)]
fn front_len(text: &[u8], at: usize) -> usize
    requires { at + LANES ≤ length text.now }
    ensures most { result ≤ LANES }
    ensures before { (k : ℕ) → at ≤ k → k < at + result
        → (slice_index text.now k == newline) ≡ false }
    ensures here { result < LANES → slice_index text.now (at + result) ≡ newline }
{
    let marks = u8x32::from_slice(&text[at..])
        .simd_eq(u8x32::splat(b'\n'))
        .to_bitmask();
    first_set(marks)
}

/// The number of the lowest bit that is set, or `LANES`.
#[inline(always)]
fn first_set(marks: u64) -> usize
    ensures { result ≡ (if marks == 0 then LANES else trailing_zeros w64 marks) }
{
    if marks == 0 {
        LANES
    } else {
        marks.trailing_zeros() as usize
    }
}
