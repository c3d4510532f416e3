//! The lists of an alternative.

ghost use Rattle.std.specs.Prelude.{◌≡◌, IfOk, map};
ghost use Rattle.std.specs.List.{list_any};
ghost use Rattle.std.specs.Option.{option_map};
ghost use Rattle.deb_base.specs.PackageNames.{is_wildcard};
ghost use Rattle.deb_relation.specs.Tests.{list_has_wildcard};
ghost use Rattle.deb_relation.specs.Views.{lent_list_of, list_of, listed_formula, listed_names, name_key, restrictions_of};

use deb_base::is_wildcard;
use std::alloc::{AllocError, Global};

/// The architecture list and the formula of an alternative.
#[derive(Debug, Drop)]
pub(crate) struct Lists<'a> {
    pub(crate) architectures: Option<(bool, Vec<&'a [u8]>)>,
    pub(crate) formula: Vec<Vec<(bool, &'a [u8])>>,
}

impl<'a> Lists<'a> {
    /// Whether the names of the architecture list have `!`, and the names.
    pub(crate) fn architectures(&self) -> Option<(bool, &[&'a [u8]])>
        ensures { option_map lent_list_of result ≡ option_map list_of self.now.architectures }
    {
        match &self.architectures {
            Some((negated, names)) => Some((*negated, names)),
            None => None,
        }
    }

    /// Whether the architecture list contains a wildcard.
    pub(crate) fn has_wildcard(&self) -> bool
        ensures { result ≡ list_has_wildcard (option_map list_of self.now.architectures) }
    {
        match &self.architectures {
            Some((_, names)) => some_is_wildcard(names),
            None => false,
        }
    }

    /// The same in a block of its own, or none if there is no list.
    pub(crate) fn boxed(self, alloc: Global) -> Result<Option<Box<Lists<'a>>>, AllocError>
        ensures names { IfOk result
            (λ lists. listed_names lists ≡ option_map list_of self.entry.architectures) }
        ensures formula { IfOk result
            (λ lists. listed_formula lists ≡ map restrictions_of self.entry.formula.items) }
    {
        if self.architectures.is_none() && self.formula.is_empty() {
            return Ok(None);
        }
        Ok(Some(Box::new(alloc, self)?))
    }
}

fn some_is_wildcard(names: &[&[u8]]) -> bool
    ensures { result ≡ list_any (λ name. is_wildcard (name_key name)) names.now }
{
    names.iter().any(|name| is_wildcard(*name))
}
