//! Names in values: packages, architectures and build profiles.

ghost use Rattle.std.specs.Prelude.{◌≡◌};
ghost use Rattle.std.specs.List.{list_all, list_any};
ghost use Rattle.deb_base.specs.PackageNames.{begins_small_or_digit, hyphen_parts, is_any, is_arch_byte, is_arch_name, is_package_byte, is_package_name, is_profile_name, is_small_or_digit, is_wildcard};

/// Returns whether this is the name of a package (Debian Policy 5.6.1): at least two of the bytes
/// `a` to `z`, `0` to `9`, `+`, `-` and `.`, beginning with a letter or a digit.
pub fn is_package_name(name: &[u8]) -> bool
    ensures { result ≡ is_package_name name.now }
{
    name.len() >= 2 && begins_small_or_digit(name) && are_package_bytes(name)
}

/// Returns whether this is the name of an architecture, or a qualifier (Debian Policy 5.6.8 and
/// 7.1): one or more of the bytes `a` to `z`, `0` to `9` and `-`, beginning with a letter or a
/// digit. A wildcard is one too.
pub fn is_arch_name(name: &[u8]) -> bool
    ensures { result ≡ is_arch_name name.now }
{
    begins_small_or_digit(name) && are_arch_bytes(name)
}

/// Returns whether this is the name of a build profile: one or more of the bytes `a` to `z`, `0` to
/// `9`, `+`, `-` and `.`, beginning with a letter or a digit.
pub fn is_profile_name(name: &[u8]) -> bool
    ensures { result ≡ is_profile_name name.now }
{
    begins_small_or_digit(name) && are_package_bytes(name)
}

/// Returns whether this is an architecture wildcard (Debian Policy 11.1): the name of an
/// architecture with `any` among its parts between hyphens, such as `any`, `linux-any` and
/// `any-amd64`.
pub fn is_wildcard(name: &[u8]) -> bool
    ensures { result ≡ is_wildcard name.now }
{
    is_arch_name(name) && has_any_part(name)
}

/// Whether `any` is among the parts between hyphens.
fn has_any_part(name: &[u8]) -> bool
    ensures { result ≡ list_any is_any (hyphen_parts name.now) }
{
    name.split(|byte| *byte == b'-').any(|part| is_any(part))
}

fn is_any(part: &[u8]) -> bool
    ensures { result ≡ is_any part.now }
{
    part == b"any".as_slice()
}

fn begins_small_or_digit(name: &[u8]) -> bool
    ensures { result ≡ begins_small_or_digit name.now }
{
    matches!(name, [first, ..] if is_small_or_digit(*first))
}

fn are_package_bytes(bytes: &[u8]) -> bool
    ensures { result ≡ list_all is_package_byte bytes.now }
{
    bytes.iter().all(|byte| is_package_byte(*byte))
}

fn are_arch_bytes(bytes: &[u8]) -> bool
    ensures { result ≡ list_all is_arch_byte bytes.now }
{
    bytes.iter().all(|byte| is_arch_byte(*byte))
}

fn is_package_byte(byte: u8) -> bool
    ensures { result ≡ is_package_byte byte }
{
    is_small_or_digit(byte) || matches!(byte, b'+' | b'-' | b'.')
}

fn is_arch_byte(byte: u8) -> bool
    ensures { result ≡ is_arch_byte byte }
{
    is_small_or_digit(byte) || byte == b'-'
}

fn is_small_or_digit(byte: u8) -> bool
    ensures { result ≡ is_small_or_digit byte }
{
    byte.is_ascii_lowercase() || byte.is_ascii_digit()
}
