//! Debian version numbers: which texts are versions, their order, their canonical text, and keys
//! that sort as they do.
//!
//! ```
//! let installed = Version::parse(b"1:2.10-3~deb12u1")?;
//! let offered = Version::parse(b"01:2.010-3")?;
//! assert!(rt; installed < offered);
//!
//! let mut canonical = Vec::new(rt.alloc());
//! offered.canon_into(&mut canonical)?;
//! assert_eq!(rt; canonical.as_slice(), b"1:2.10-3".as_slice());
//!
//! let fault = Version::parse(b"1.0_2").err();
//! assert_eq!(rt; fault, Some(BadVersion::UpstreamByte { at: 3 }));
//! ```
//!
//! [`Version::parse`] accepts exactly the texts that spell a version (Debian Policy 5.6.12), and
//! returns the first fault of any other. The order is Debian's (deb-version(7)); it is total, and a
//! run of digits may have any length. Two versions are equal in it exactly if they have the same
//! canonical text, which spells them, and exactly if they have the same key
//! ([`Version::key_into`]). The order of the bytes of keys is that of the versions.
#![tactic(auto)]

mod canonical;
mod canonical_version;
mod component;
mod components;
mod cut;
mod fault;
mod hash;
mod key;
pub mod laws;
mod order;
mod prefix;
mod run;
mod version;
mod version_text;

pub use canonical_version::CanonicalVersion;
pub use fault::BadVersion;
pub use prefix::canonical_prefix;
pub use version::Version;
pub use version_text::VersionText;
