//! Restriction lists whose items are known to name profiles.

ghost use Rattle.std.specs.Prelude.{IsTrue};
ghost use Rattle.deb_relation.specs.ProfileLists.{are_profiles};
ghost use Rattle.deb_relation.specs.Views.{items_of};

/// One or more items of a formula's list, which each name a profile.
#[derive(Debug, Drop)]
pub(crate) struct ProfileList<'a> {
    pub(crate) items: Vec<(bool, &'a [u8])>,
    ghost profiles: { IsTrue (are_profiles (items_of items.items)) },
}
