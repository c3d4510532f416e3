//! Names of fields, compared without ASCII case.

ghost use Rattle.std.specs.Prelude.{◌≡◌, fold, bytes_eq};
ghost use Rattle.std.proofs.Common.{rules};
ghost use Rattle.std.specs.Cmp.Rules.{comparing, hashing};
ghost use Rattle.std.specs.Hash as fed;
ghost use Rattle.deb_base.specs.Names.{folded};

use std::hash::{Hash, Hasher};

/// A field's name as spelled, which is equal to each name that differs from it in ASCII case alone
/// (Debian Policy 5.1).
#[derive(Clone, Copy)]
pub(crate) struct FoldedName<'a>(pub(crate) &'a [u8]);

impl PartialEq for FoldedName<'_> {
    ghost eq = { λ a b. bytes_eq (folded a.0.now) (folded b.0.now) };

    ghost laws = { Prim.search (comparing, rules) };

    fn eq(&self, other: &Self) -> bool {
        self.0.eq_ignore_ascii_case(other.0)
    }
}

impl Eq for FoldedName<'_> {
    ghost laws = { Prim.search (comparing, rules) };
}

impl Hash for FoldedName<'_> {
    ghost hash_input = { λ name. fed.slice fed.u8 (folded name.0.now) };

    ghost respects_eq = { Prim.search (hashing, rules) };

    fn hash<H: Hasher>(&self, state: &mut H) {
        hash_folded(self.0, state);
    }
}

fn hash_folded<H: Hasher>(name: &[u8], state: &mut H)
    ensures { state.new ≡ fold H.write state.old (fed.slice fed.u8 (folded name.now)) }
{
    state.write_usize(name.len());
    for byte in name {
        state.write_u8(byte.to_ascii_lowercase());
    }
}
