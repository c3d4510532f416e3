//! Hashes versions, so that equal versions hash equally.

ghost use Rattle.std.specs.Prelude.{◌≡◌, fold};
ghost use Rattle.deb_version.specs.HashLaws.{equal_feed_alike};
ghost use Rattle.deb_version.specs.Hashes.{component_writes, version_writes};
ghost use Rattle.deb_version.specs.Parts.{parts_of};
ghost use Rattle.deb_version.specs.Version.{components_of, meaning_of};

use crate::canonical::canonical_digits;
use crate::cut::Cut;
use crate::version::Version;
use std::hash::{Hash, Hasher};

/// Feeds the hasher with the digits of the epoch and each text and number of the components,
/// without leading zeros, so that equal versions hash equally. Takes no memory.
impl Hash for Version<'_> {
    ghost hash_input = { λ v. version_writes (meaning_of v) };

    ghost respects_eq = { λ a b. equal_feed_alike (components_of a) (components_of b) };

    fn hash<H: Hasher>(&self, state: &mut H) {
        let epoch = Cut {
            text: &[],
            run: self.epoch.unwrap_or(&[]),
        };
        state.write(canonical_digits(epoch, false));
        hash_component(self.upstream, state);
        hash_component(self.revision.unwrap_or(&[]), state);
    }
}

/// Feeds the parts of an upstream version or a revision, and then their end.
fn hash_component<H: Hasher>(component: &[u8], state: &mut H)
    ensures { state.new ≡ fold H.write state.old (component_writes (parts_of component.now)) }
{
    let mut rest = component;
    loop {
        let (cut, after) = Cut::first(rest);
        state.write(cut.text);
        state.write(canonical_digits(cut, false));
        if after.is_empty() {
            state.write_u8(0xff);
            return;
        }
        rest = after;
    }
}
