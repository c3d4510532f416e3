//! Lines that say what changed.

ghost use Rattle.std.specs.Prelude.{◌≡◌, ◌++◌, ◌∷◌, [], ℕ, List, map, codes, OnOk};
ghost use Rattle.std.specs.Fmt.{decimal};
ghost use Rattle.deb_diff.specs.Kepts.{architecture_in, name_in, printed_in, version_in};
ghost use Rattle.deb_diff.specs.Lines.{line_of, version_word};
ghost use Rattle.deb_diff.specs.Lefts.{rest_of_line};

use crate::kept::Kept;
use crate::ranks::compare_versions;
use deb_base::VersionText;
use itoa::Buffer;
use std::alloc::AllocError;

/// Appends a line with a word, the number, name, version and architecture of a paragraph.
pub(crate) fn append_item(
    out: &mut Vec<u8>,
    versions: VersionText,
    word: &[u8],
    kept: &Kept,
) -> Result<(), AllocError>
    ensures { OnOk result (out.new.items ≡ out.old.items ++ line_of
        (word.now ∷ decimal kept.now.number ∷ name_in kept.now ∷ printed_in versions kept.now
        ∷ architecture_in kept.now ∷ [])) }
{
    append_head(out, word, kept)?;
    append_word(out, kept.printed(versions))?;
    append_word(out, kept.architecture())?;
    out.push(b'\n')?;
    Ok(())
}

/// Appends the line of a changed paragraph, with the names of fields.
pub(crate) fn append_changed(
    out: &mut Vec<u8>,
    versions: VersionText,
    kept: &Kept,
    names: &[&[u8]],
) -> Result<(), AllocError>
    ensures { OnOk result (out.new.items ≡ out.old.items ++ codes "changed"
        ++ rest_of_line (decimal kept.now.number ∷ name_in kept.now ∷ printed_in versions kept.now
        ∷ architecture_in kept.now ∷ map (λ n. n.now) names.now)) }
{
    append_head(out, b"changed", kept)?;
    append_tail(out, versions, kept, names)
}

/// Appends the line of a paragraph that has another version, with both versions and the names of
/// fields.
pub(crate) fn append_upgraded(
    out: &mut Vec<u8>,
    versions: VersionText,
    old: &Kept,
    kept: &Kept,
    names: &[&[u8]],
) -> Result<(), AllocError>
    ensures { OnOk result (out.new.items ≡ out.old.items
        ++ version_word (version_in old.now) (version_in kept.now)
        ++ rest_of_line (decimal kept.now.number ∷ name_in kept.now
        ∷ printed_in versions old.now ∷ printed_in versions kept.now ∷ architecture_in kept.now
        ∷ map (λ n. n.now) names.now)) }
{
    append_head(out, version_word(old, kept), kept)?;
    append_word(out, old.printed(versions))?;
    append_tail(out, versions, kept, names)
}

/// Returns the word that says whether the new version is an earlier or a later one.
fn version_word(old: &Kept, kept: &Kept) -> &'static [u8]
    ensures { result.now ≡ version_word (version_in old.now) (version_in kept.now) }
{
    if compare_versions(kept.version(), old.version()).is_lt() {
        b"downgraded"
    } else {
        b"upgraded"
    }
}

/// Appends the version and the architecture of a paragraph, the names of fields and a newline.
fn append_tail(
    out: &mut Vec<u8>,
    versions: VersionText,
    kept: &Kept,
    names: &[&[u8]],
) -> Result<(), AllocError>
    ensures { OnOk result (out.new.items ≡ out.old.items ++ rest_of_line
        (printed_in versions kept.now ∷ architecture_in kept.now ∷ map (λ n. n.now) names.now)) }
{
    append_word(out, kept.printed(versions))?;
    append_word(out, kept.architecture())?;
    append_names(out, names)
}

/// Appends a word, the number and the name of a paragraph.
fn append_head(out: &mut Vec<u8>, word: &[u8], kept: &Kept) -> Result<(), AllocError>
    ensures { OnOk result (out.new.items ≡ out.old.items
        ++ (word.now ++ (32 ∷ decimal kept.now.number ++ 32 ∷ name_in kept.now))) }
{
    let mut buffer = Buffer::new();
    out.extend_from_slice(word)?;
    append_word(out, buffer.format(kept.number).as_bytes())?;
    append_word(out, kept.name())
}

/// Appends a space and a word.
fn append_word(out: &mut Vec<u8>, word: &[u8]) -> Result<(), AllocError>
    ensures { OnOk result (out.new.items ≡ out.old.items ++ codes " " ++ word.now) }
{
    out.push(b' ')?;
    out.extend_from_slice(word)?;
    Ok(())
}

/// Appends names, each after a space, and a newline.
fn append_names(out: &mut Vec<u8>, names: &[&[u8]]) -> Result<(), AllocError>
    ensures { OnOk result (out.new.items ≡ out.old.items ++ rest_of_line
        (map (λ n. n.now) names.now)) }
{
    for name in names {
        append_word(out, *name)?;
    }
    out.push(b'\n')?;
    Ok(())
}
