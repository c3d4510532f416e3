//! Field names, compared without ASCII case.

ghost use Rattle.std.specs.Prelude.{◌≡◌, ◌↔◌, IsTrue};
ghost use Rattle.deb_base.specs.Names.{folded};

/// Returns whether two names are the same: equal without ASCII case (Debian Policy 5.1).
pub fn same_name(a: &[u8], b: &[u8]) -> bool
    ensures { IsTrue result ↔ (folded a.now ≡ folded b.now) }
{
    a.eq_ignore_ascii_case(b)
}
