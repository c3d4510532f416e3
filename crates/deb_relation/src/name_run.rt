//! How many bytes of a package's name a text begins with, counted 16 at a time.

ghost use Rattle.std.specs.Prelude.{◌≡◌, ◌≤◌, length, take};
ghost use Rattle.std.specs.List.{prefix_len};
ghost use Rattle.deb_base.specs.PackageNames.{is_package_byte};
ghost use Rattle.deb_relation.specs.Lanes.{first_set};

use crate::name_byte::is_package_byte;
use std::simd::prelude::*;

/// How many bytes are looked at in one step.
const LANES: usize = 16;

/// The number of the lowest bit that is set, or `LANES`.
#[inline(always)]
fn first_set(mask: u64) -> usize
    ensures { result ≡ first_set mask }
{
    if mask == 0 {
        LANES
    } else {
        mask.trailing_zeros() as usize
    }
}

/// How many of the first `LANES` bytes, from the first, are bytes of a package's name.
#[inline(always)]
fn front_len(text: &[u8]) -> usize
    requires { LANES ≤ length text.now }
    ensures { result ≡ prefix_len is_package_byte (take LANES text.now) }
{
    let bytes = u8x16::from_slice(text);
    let no_letter = (bytes - u8x16::splat(b'a')).simd_ge(u8x16::splat(26));
    let no_digit = (bytes - u8x16::splat(b'-')).simd_ge(u8x16::splat(13));
    let no_sign = bytes.simd_ne(u8x16::splat(b'+'));
    let stops = no_letter & (no_digit | bytes.simd_eq(u8x16::splat(b'/'))) & no_sign;
    first_set(stops.to_bitmask())
}

/// The same of a whole text, byte by byte.
fn rest_len(text: &[u8]) -> usize
    ensures value { result ≡ prefix_len is_package_byte text.now }
    ensures bound { result ≤ length text.now }
{
    text.iter()
        .take_while(|byte| is_package_byte(**byte))
        .count()
}

/// How many bytes of a package's name a text begins with.
pub(crate) fn package_len(text: &[u8]) -> usize
    ensures value { result ≡ prefix_len is_package_byte text.now }
    ensures bound { result ≤ length text.now }
{
    let mut rest = text;
    while rest.len() >= LANES {
        let len = front_len(rest);
        if len < LANES {
            return text.len() - rest.len() + len;
        }
        rest = &rest[LANES..];
    }
    text.len() - rest.len() + rest_len(rest)
}
