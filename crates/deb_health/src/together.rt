//! Which packages of one name can be installed together.

ghost use Rattle.std.specs.Prelude.{◌≡◌};
ghost use Rattle.deb_index.specs.Kept.{listed_of};
ghost use Rattle.deb_index.specs.Meeting.{effective, multi_arch_or_no};
ghost use Rattle.deb_health.specs.Together.{are_together, is_same};

use deb_field::MultiArch;
use deb_index::Package;

/// Returns whether two packages of one name can be installed together (Debian Policy 5.6.8;
/// Multi-Arch is that of deb-control(5)).
pub fn are_together(target: &[u8], first: &Package<'_>, second: &Package<'_>) -> bool
    ensures { result ≡ are_together target.now (listed_of first.now) (listed_of second.now) }
{
    is_same(first)
        && is_same(second)
        && effective(target, first.architecture()) != effective(target, second.architecture())
        && first.version() == second.version()
}

/// Returns whether a package is `Multi-Arch: same`.
fn is_same(of: &Package<'_>) -> bool
    ensures { result ≡ is_same (multi_arch_or_no (listed_of of.now).multi_arch) }
{
    matches!(of.multi_arch(), Some(MultiArch::Same))
}

/// Returns the architecture of a package for a target: the target if it is `all`.
pub(crate) fn effective<'a>(target: &'a [u8], architecture: &'a [u8]) -> &'a [u8]
    ensures { result.now ≡ effective target.now architecture.now }
{
    if architecture == b"all".as_slice() {
        target
    } else {
        architecture
    }
}
