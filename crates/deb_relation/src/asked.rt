//! What an alternative asks of the version and the architecture of a package.

ghost use Rattle.std.specs.Prelude.{◌≡◌, ◌++◌, IfOk, OnOk};
ghost use Rattle.std.specs.Option.{option_copied, option_map};
ghost use Rattle.deb_relation.specs.Texts.{qualifier_text};
ghost use Rattle.deb_relation.specs.Views.{asked_bound, asked_qualifier, bound_of, lent_bound_of};

use crate::operator::Op;
use deb_version::Version;
use std::alloc::{AllocError, Global};

/// The qualifier and the bound of an alternative.
#[derive(Debug, Drop)]
pub(crate) struct Asked<'a> {
    pub(crate) qualifier: Option<&'a [u8]>,
    pub(crate) bound: Option<(Op, Version<'a>)>,
}

impl<'a> Asked<'a> {
    /// The operator and the version of the bound.
    pub(crate) fn bound(&self) -> Option<(Op, &Version<'a>)>
        ensures { option_map lent_bound_of result ≡ option_map bound_of self.now.bound }
    {
        match &self.bound {
            Some((operator, version)) => Some((*operator, version)),
            None => None,
        }
    }

    /// The same in a block of its own, or none if there is neither.
    pub(crate) fn boxed(self, alloc: Global) -> Result<Option<Box<Asked<'a>>>, AllocError>
        ensures qualifier { IfOk result
            (λ asked. asked_qualifier asked ≡ option_copied self.entry.qualifier) }
        ensures bound { IfOk result
            (λ asked. asked_bound asked ≡ option_map bound_of self.entry.bound) }
    {
        if self.qualifier.is_none() && self.bound.is_none() {
            return Ok(None);
        }
        Ok(Some(Box::new(alloc, self)?))
    }
}

/// Appends a colon and the qualifier, or nothing.
pub(crate) fn append_qualifier(
    out: &mut Vec<u8>,
    qualifier: Option<&[u8]>,
) -> Result<(), AllocError>
    ensures { OnOk result
        (out.new.items ≡ out.old.items ++ qualifier_text (option_copied qualifier.entry)) }
{
    if let Some(qualifier) = qualifier {
        out.push(b':')?;
        out.extend_from_slice(qualifier)?;
    }
    Ok(())
}
