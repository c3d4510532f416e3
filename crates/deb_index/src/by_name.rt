//! Finds the packages that meet an alternative, by name and bound alone or wholly.

ghost use Rattle.std.specs.Prelude.{◌≡◌, IfOk, map};
ghost use Rattle.deb_relation.specs.Environments.{environment_of};
ghost use Rattle.deb_relation.specs.Meaning.{Alternative as Meaning};
ghost use Rattle.deb_relation.specs.Views.{alternative_of};
ghost use Rattle.deb_index.specs.Crowds.{AreMeeting};
ghost use Rattle.deb_index.specs.Indexes.{number_in, packages_of};
ghost use Rattle.deb_index.specs.Meeting.{meets, meets_by_name};
ghost use Rattle.deb_index.specs.Named.{numbers_of};
ghost use Rattle.deb_index.specs.Why.{has_or_provides};

use crate::index::Index;
use deb_relation::{Alternative, Env};
use std::alloc::{AllocError, Global};

impl Index {
    /// Returns the numbers of the packages that have the name of an alternative or provide it, in a
    /// version that meets its bound (Debian Policy 7.1 and 7.5), whatever its qualifier, its
    /// architecture list and its formula say. They are in ascending order without repeats; the
    /// first package of the index has the number 1.
    ///
    /// # Errors
    ///
    /// Out of memory.
    pub fn meeting_by_name(
        &self,
        alloc: Global,
        alternative: &Alternative<'_>,
    ) -> Result<Vec<u64>, AllocError>
        ensures { IfOk result (λ numbers. numbers.items
            ≡ numbers_of (meets_by_name (alternative_of alternative.now)) (packages_of self.now)) }
    {
        if let Some(offers) = self.offers(alternative) {
            return numbers_offered(alloc, self, offers);
        }
        let mut numbers = numbers_under(alloc, self, alternative.name())?;
        numbers.retain(|number| match self.package(*number) {
            Some(package) => package.meets_by_name(alternative),
            None => false,
        });
        Ok(numbers)
    }

    /// Returns the numbers of the packages that meet an alternative (Debian Policy 7.1 and 7.5;
    /// qualifiers and Multi-Arch are those of deb-control(5)), whether or not it applies. They are
    /// in ascending order without repeats; the first package of the index has the number 1.
    ///
    /// # Errors
    ///
    /// Out of memory.
    pub fn meeting(
        &self,
        alloc: Global,
        alternative: &Alternative<'_>,
        environment: &Env,
    ) -> Result<Vec<u64>, AllocError>
        ensures { IfOk result (λ numbers. numbers.items ≡ numbers_of (meets
            (environment_of environment.now) (alternative_of alternative.now))
            (packages_of self.now)) }
    {
        let mut numbers = self.meeting_by_name(alloc, alternative)?;
        numbers.retain(|number| match self.package(*number) {
            Some(package) => package.meets(alternative, environment),
            None => false,
        });
        Ok(numbers)
    }
}

/// The numbers of the packages of offers, in ascending order and each once.
fn numbers_offered(alloc: Global, index: &Index, offers: &[u32]) -> Result<Vec<u64>, AllocError>
    ensures { (a : Meaning)
        → AreMeeting a (packages_of index.now) (map (number_in index.now) offers.now)
        → IfOk result (λ numbers. numbers.items
        ≡ numbers_of (meets_by_name a) (packages_of index.now)) }
{
    let mut numbers: Vec<u64> = offers
        .iter()
        .map(|offer| index.number(*offer))
        .collect(alloc)?;
    numbers.sort_unstable();
    numbers.dedup();
    Ok(numbers)
}

/// The numbers of the packages that have a name or provide it, in ascending order and each once.
pub(crate) fn numbers_under(
    alloc: Global,
    index: &Index,
    name: &[u8],
) -> Result<Vec<u64>, AllocError>
    ensures { IfOk result (λ numbers. numbers.items
        ≡ numbers_of (has_or_provides name.now) (packages_of index.now)) }
{
    let mut numbers = Vec::from_slice(alloc, index.packages(name))?;
    numbers.extend_from_slice(index.providers(name))?;
    numbers.sort_unstable();
    numbers.dedup();
    Ok(numbers)
}
