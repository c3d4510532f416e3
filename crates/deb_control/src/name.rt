//! The canonical spelling of names, and its order.

ghost use Rattle.std.specs.Prelude.{◌≡◌, ◌++◌, ◌≤◌, if◌then◌else◌, ◌==◌, length, take, OnOk};
ghost use Rattle.std.specs.Char.{to_ascii_lowercase, to_ascii_uppercase};
ghost use Rattle.deb_base.specs.Names.{canonical_name};
ghost use Rattle.deb_syntax.specs.Meaning.{byte_order};
ghost use Rattle.deb_control.specs.Sorting.{front_number};

use deb_syntax::RawField;
use std::alloc::AllocError;
use std::cmp::Ordering;

/// How many bytes of two names are compared at once.
const STEP: usize = 32;

/// Compares the canonical spellings of two names in the order of bytes.
pub(crate) fn compare(name: &[u8], other: &[u8]) -> Ordering
    ensures { result ≡ byte_order (canonical_name name.now) (canonical_name other.now) }
{
    // Bytes that are the same are spelled alike.
    let same = same_front(name, other);
    let (_, mut rest) = name.split_at(same);
    let (_, mut rest_beside) = other.split_at(same);
    let mut before = if same > 0 { name[same - 1] } else { b'-' };
    while let [byte, behind @ ..] = rest {
        let [beside, behind_beside @ ..] = rest_beside else {
            return Ordering::Greater;
        };
        let canonical = canonical_byte(before, *byte);
        let canonical_beside = canonical_byte(before, *beside);
        if canonical != canonical_beside {
            return canonical.cmp(&canonical_beside);
        }
        rest = behind;
        rest_beside = behind_beside;
        before = *byte;
    }
    match rest_beside {
        [] => Ordering::Equal,
        [_, ..] => Ordering::Less,
    }
}

/// How many bytes in front of two names were found to be the same: as many whole steps as are.
fn same_front(name: &[u8], other: &[u8]) -> usize
    ensures within { (result ≤ length name.now) × (result ≤ length other.now) }
    ensures same { take result name.now ≡ take result other.now }
{
    let mut same = 0;
    while name.len() - same >= STEP
        && other.len() - same >= STEP
        && name[same..same + STEP] == other[same..same + STEP]
    {
        same += STEP;
    }
    same
}

/// The first bytes of the canonical spelling of a name, as one number.
pub(crate) fn name_front(name: &[u8]) -> u64
    ensures { result ≡ front_number 8 (canonical_name name.now) }
{
    let mut front = 0;
    let mut before = b'-';
    for index in 0..8 {
        let byte = if index < name.len() { name[index] } else { 0 };
        front = front * 256 + u64::from(canonical_byte(before, byte));
        before = byte;
    }
    front
}

/// Appends the canonical spelling of a field's name.
pub(crate) fn append_name(field: &RawField<'_>, text: &mut Vec<u8>) -> Result<(), AllocError>
    ensures { OnOk result
        (text.new.items ≡ text.old.items ++ canonical_name field.now.name.now) }
{
    match field.id.canonical_name() {
        Some(name) => text.extend_from_slice(name),
        None => append_spelled(field.name, text),
    }
}

/// Appends the canonical spelling of a name.
fn append_spelled(name: &[u8], text: &mut Vec<u8>) -> Result<(), AllocError>
    ensures { OnOk result (text.new.items ≡ text.old.items ++ canonical_name name.now) }
{
    let mut before = b'-';
    for byte in name {
        text.push(canonical_byte(before, *byte))?;
        before = *byte;
    }
    Ok(())
}

/// A byte of a name in the canonical spelling: a letter after a hyphen in upper case, each other
/// one in lower case. A name's first byte is taken as one after a hyphen.
fn canonical_byte(before: u8, byte: u8) -> u8
    ensures { result
        ≡ (if before == 45 then to_ascii_uppercase byte else to_ascii_lowercase byte) }
{
    if before == b'-' {
        byte.to_ascii_uppercase()
    } else {
        byte.to_ascii_lowercase()
    }
}
