//! The environment that relations are asked for: a target architecture, the native one, and active
//! build profiles.

ghost use Rattle.std.specs.Prelude.{◌≡◌, ◌==◌, ◌++◌, IfOk, IfErr, IsTrue, IsFalse, Err, map};
ghost use Rattle.std.specs.List.{list_all, list_any};
ghost use Rattle.std.specs.Str.{bytes_eq};
ghost use Rattle.deb_base.specs.PackageNames.{is_profile_name};
ghost use Rattle.deb_relation.specs.Targets.{bytes_of, is_environment, is_target};
ghost use Rattle.deb_relation.specs.Views.{name_key, names_of};

use deb_base::{is_arch_name, is_profile_name, is_wildcard};
use std::alloc::{AllocError, AllocFailed, Global};

/// A target architecture and the build profiles that are active (Debian Policy 7.1), and the native
/// architecture, which a package of the architecture `all` counts as (deb-control(5)).
#[derive(Debug, Drop)]
pub struct Env {
    pub(crate) target: Vec<u8>,
    pub(crate) native: Vec<u8>,
    pub(crate) profiles: Vec<Vec<u8>>,
}

/// Why there is no such environment.
#[derive(Clone, Copy, Debug, PartialEq, Eq)]
pub enum EnvFault {
    /// The target isn't an architecture name, or is a wildcard or `all`; or a profile isn't the
    /// name of a build profile.
    BadEnvironment,
    /// A growth of memory was refused.
    Memory,
}

impl From<AllocError> for EnvFault {
    ghost use Rattle.deb_relation.specs.declared.environment.EnvFault.TheVariants.{Memory};

    ghost from_gives = { λ _ fault. fault ≡ Memory };

    fn from(_error: AllocError) -> EnvFault {
        EnvFault::Memory
    }
}

impl<T: Drop> From<AllocFailed<T>> for EnvFault {
    ghost use Rattle.deb_relation.specs.declared.environment.EnvFault.TheVariants.{Memory};

    ghost from_gives = { λ _ fault. fault ≡ Memory };

    fn from(_error: AllocFailed<T>) -> EnvFault {
        EnvFault::Memory
    }
}

impl Env {
    ghost use Rattle.deb_relation.specs.Applying.{is_among};
    ghost use Rattle.deb_relation.specs.Environments.{environment_of, environment_with};
    ghost use Rattle.deb_relation.specs.Environments.{with_target};

    /// Copies a target, which is also the native architecture, and profiles.
    ///
    /// # Errors
    ///
    /// - `BadEnvironment`, exactly if the target isn't an architecture name, or is a wildcard or
    ///   `all`, or a profile isn't the name of a build profile.
    /// - `Memory`, if a growth of memory was refused.
    pub fn new(alloc: Global, target: &[u8], profiles: &[&[u8]]) -> Result<Env, EnvFault>
        ensures ok { IfOk result
            (λ environment. environment_of environment
            ≡ environment_with target.now (names_of profiles.now)) }
        ensures accepted { IfOk result
            (λ _. IsTrue (is_environment target.now (names_of profiles.now))) }
        ensures refused { IfErr result
            (λ fault. fault ≡ EnvFault.BadEnvironment
            → IsFalse (is_environment target.now (names_of profiles.now))) }
        ensures bad_is_refused { IsFalse (is_environment target.now (names_of profiles.now))
            → result ≡ Err EnvFault.BadEnvironment }
    {
        if !is_environment(target, profiles) {
            return Err(EnvFault::BadEnvironment);
        }
        let native = Vec::from_slice(alloc, target)?;
        let target = Vec::from_slice(alloc, target)?;
        let profiles = copies_of(alloc, profiles)?;
        Ok(Env {
            target,
            native,
            profiles,
        })
    }

    /// Copies the environment with another target, and the same native architecture.
    ///
    /// # Errors
    ///
    /// - `BadEnvironment`, exactly if the target isn't an architecture name, or is a wildcard or
    ///   `all`.
    /// - `Memory`, if a growth of memory was refused.
    pub fn for_target(&self, alloc: Global, target: &[u8]) -> Result<Env, EnvFault>
        ensures ok { IfOk result
            (λ environment. environment_of environment
            ≡ with_target target.now (environment_of self.now)) }
        ensures accepted { IfOk result (λ _. IsTrue (is_target target.now)) }
        ensures refused { IfErr result
            (λ fault. fault ≡ EnvFault.BadEnvironment → IsFalse (is_target target.now)) }
        ensures bad_is_refused { IsFalse (is_target target.now)
            → result ≡ Err EnvFault.BadEnvironment }
    {
        if !is_target(target) {
            return Err(EnvFault::BadEnvironment);
        }
        let target = Vec::from_slice(alloc, target)?;
        let native = Vec::from_slice(alloc, &self.native)?;
        let profiles = copies_again(alloc, &self.profiles)?;
        Ok(Env {
            target,
            native,
            profiles,
        })
    }

    /// Returns the target architecture.
    pub fn target(&self) -> &[u8]
        ensures { result.now ≡ (environment_of self.now).target }
    {
        &self.target
    }

    /// Returns the native architecture, which `all` counts as.
    pub fn native(&self) -> &[u8]
        ensures { result.now ≡ (environment_of self.now).native }
    {
        &self.native
    }

    /// Returns whether this profile is active.
    pub fn active(&self, profile: &[u8]) -> bool
        ensures { result ≡ is_among profile.now (environment_of self.now).profiles }
    {
        some_is(&self.profiles, profile)
    }
}

/// Whether this is a target and these are profiles.
fn is_environment(target: &[u8], profiles: &[&[u8]]) -> bool
    ensures { result ≡ is_environment target.now (names_of profiles.now) }
{
    is_target(target) && are_profiles(profiles)
}

fn are_profiles(names: &[&[u8]]) -> bool
    ensures { result ≡ list_all is_profile_name (names_of names.now) }
{
    each_is_profile(names)
}

fn is_target(name: &[u8]) -> bool
    ensures { result ≡ is_target name.now }
{
    is_arch_name(name) && !is_wildcard(name) && name != b"all".as_slice()
}

/// Copies of names.
fn copies_of(alloc: Global, names: &[&[u8]]) -> Result<Vec<Vec<u8>>, AllocError>
    ensures { IfOk result (λ copies. map bytes_of copies.items ≡ names_of names.now) }
{
    let mut copies = Vec::new(alloc);
    for name in names {
        copies.push(Vec::from_slice(alloc, name)?)?;
    }
    Ok(copies)
}

/// Copies of names that are copies themselves.
fn copies_again(alloc: Global, names: &[Vec<u8>]) -> Result<Vec<Vec<u8>>, AllocError>
    ensures { IfOk result (λ copies. map bytes_of copies.items ≡ map bytes_of names.now) }
{
    let mut copies = Vec::new(alloc);
    for name in names {
        copies.push(Vec::from_slice(alloc, name)?)?;
    }
    Ok(copies)
}

fn some_is(names: &[Vec<u8>], name: &[u8]) -> bool
    ensures { result ≡ list_any (λ other. bytes_eq (bytes_of other) name.now) names.now }
{
    names.iter().any(|other| other.as_slice() == name)
}

fn each_is_profile(names: &[&[u8]]) -> bool
    ensures { result ≡ list_all (λ name. is_profile_name (name_key name)) names.now }
{
    names.iter().all(|name| is_profile_name(*name))
}
