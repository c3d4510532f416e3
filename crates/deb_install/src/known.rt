//! The groups whose texts were seen before.

ghost use Rattle.std.specs.Prelude.{◌≡◌, IfSome, OnOk};
ghost use Rattle.deb_install.specs.Known.{HasNumber, IsEmpty, Notes};

use indexmap::IndexMap;
use std::alloc::{AllocError, Global};

/// The numbers of the rows of groups that have one row each, by their canonical texts.
#[derive(Drop)]
pub(crate) struct Known {
    pub(crate) numbers: IndexMap<Vec<u8>, u32>,
}

impl Known {
    /// There are none.
    pub(crate) fn new(alloc: Global) -> Known
        ensures { IsEmpty result }
    {
        Known {
            numbers: IndexMap::new(alloc),
        }
    }

    /// Returns the number of the row of a group with a canonical text, if it is known.
    pub(crate) fn number_of(&self, text: &[u8]) -> Option<u32>
        ensures { IfSome result (HasNumber self.now text.now) }
    {
        self.numbers.get(text).copied()
    }

    /// Notes the number of the row of a group with a canonical text.
    pub(crate) fn insert(
        &mut self,
        alloc: Global,
        text: &[u8],
        number: u32,
    ) -> Result<(), AllocError>
        ensures { OnOk result (Notes text.now number self.old self.new) }
    {
        self.numbers.insert(Vec::from_slice(alloc, text)?, number)?;
        Ok(())
    }
}
