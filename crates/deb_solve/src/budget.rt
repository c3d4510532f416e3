//! How long searches may take.

/// The steps that searches may take. In a step the search finds what follows from its last choice,
/// and then chooses a package or learns from a conflict. A step counts once more for each thousand
/// numbers that it looks at.
#[derive(Clone, Copy)]
pub struct Budget {
    /// Of the search for one package. All searches together may take so many, and a hundred more
    /// for each package of the universe.
    pub one_search: u32,
}

impl Budget {
    /// Returns the steps that the next search may take in a universe of so many packages, after the
    /// searches before took so many.
    pub(crate) fn steps_left(&self, packages: u32, taken: u32) -> u32 {
        let all = self.one_search.saturating_add(packages.saturating_mul(100));
        let left = all.saturating_sub(taken);
        if self.one_search < left {
            self.one_search
        } else {
            left
        }
    }
}
