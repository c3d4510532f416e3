//! What is searched: packages by number, with what they need and exclude.

use crate::rows::Rows;

/// Packages and groups of packages, each a number, counted from 0.
#[derive(Drop)]
pub struct Universe {
    /// For each package the groups that it needs.
    pub needs: Rows,
    /// For each group the packages that meet it.
    pub groups: Rows,
    /// For each package those that can't be installed together with it.
    pub excludes: Rows,
}

impl Universe {
    /// Returns how many numbers its rows keep.
    pub(crate) fn size(&self) -> usize {
        let rows = self.needs.size().saturating_add(self.groups.size());
        rows.saturating_add(self.excludes.size())
    }
}
