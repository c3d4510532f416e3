//! The name of a package, and its qualifier.

ghost use Rattle.std.specs.Prelude.{◌≡◌, Ok, IfSome};
ghost use Rattle.std.specs.Option.{option_copied};
ghost use Rattle.deb_base.specs.PackageNames.{begins_small_or_digit};
ghost use Rattle.deb_relation.specs.Reading.{read_name, read_qualifier};
ghost use Rattle.deb_relation.specs.Stops.{Gives};
ghost use Rattle.deb_relation.specs.Views.{text_behind};

use crate::cursor::{begins, begins_name, cut_name};
use crate::fault::{Reason, Stop};
use crate::name_run::package_len;
use deb_base::{is_arch_name, is_package_name};

fn begins_small_or_digit(name: &[u8]) -> bool
    ensures { result ≡ begins_small_or_digit name.now }
{
    matches!(name, [first, ..] if first.is_ascii_lowercase() || first.is_ascii_digit())
}

/// The name, and what is left after it, where the bytes of package names that a text begins with
/// are one: so that a good name is passed over once.
#[tactic(auto, using(crate::proofs::Names::name_begun))]
pub(crate) fn read_good_name(text: &[u8]) -> Option<(&[u8], &[u8])>
    ensures { IfSome result (λ p. read_name text.now ≡ Ok (text_behind p)) }
{
    let (name, behind) = text.split_at(package_len(text));
    if name.len() >= 2 && begins_small_or_digit(name) && !begins_name(behind) {
        Some((name, behind))
    } else {
        None
    }
}

/// The name, and what is left after it, or why there is none.
#[tactic(auto, unfolding(crate::specs::Reading::read_name))]
fn read_any_name(text: &[u8]) -> Result<(&[u8], &[u8]), Stop>
    ensures { Gives result text_behind (read_name text.now) }
{
    let (name, behind) = cut_name(text);
    if name.is_empty() {
        return Err(Stop::Bad {
            reason: Reason::NameExpected,
            left: text.len(),
        });
    }
    if !is_package_name(name) {
        return Err(Stop::Bad {
            reason: Reason::NameBad,
            left: text.len(),
        });
    }
    Ok((name, behind))
}

/// The name, and what is left after it.
pub(crate) fn read_name(text: &[u8]) -> Result<(&[u8], &[u8]), Stop>
    ensures { Gives result text_behind (read_name text.now) }
{
    match read_good_name(text) {
        Some(read) => Ok(read),
        None => read_any_name(text),
    }
}

/// A colon and a qualifier, or nothing; and what is left after it.
#[tactic(auto, unfolding(crate::specs::Reading::read_qualifier))]
pub(crate) fn read_qualifier(text: &[u8]) -> Result<(Option<&[u8]>, &[u8]), Stop>
    ensures { Gives result (λ p. (option_copied p.0, p.1.now)) (read_qualifier text.now) }
{
    if !begins(text, b':') {
        return Ok((None, text));
    }
    let text = &text[1..];
    let (qualifier, behind) = cut_name(text);
    if !is_arch_name(qualifier) {
        return Err(Stop::Bad {
            reason: Reason::QualifierBad,
            left: text.len(),
        });
    }
    Ok((Some(qualifier), behind))
}
