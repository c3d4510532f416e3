//! The version of the library, for programs in C.

ghost use Rattle.std.specs.Prelude.{◌≡◌};

/// Returns the version of the library, as 10000 * major + 100 * minor + patch: 0.1.0 is 100.
#[unsafe(no_mangle)]
pub extern "C" fn deb_library_version() -> u32
    ensures { result ≡ 100 }
{
    100
}
