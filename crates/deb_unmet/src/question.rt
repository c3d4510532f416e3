//! What relations are asked over.

use deb_index::Index;
use deb_relation::Env;

/// What the relations of a file are asked over.
#[derive(Clone, Copy)]
pub struct Question<'a> {
    /// The index of the packages that may meet a relation, without those that are left out
    /// ([`Index::without`]).
    pub index: &'a Index,
    /// An old index, if there is one: a group that it doesn't meet in every reading has no line.
    pub unless: Option<&'a Index>,
    /// The names of the binary packages that are left out: their own relations aren't asked.
    pub without: &'a [&'a [u8]],
    /// The environment of the relations. [`crate::append_lines`] takes a binary package's own
    /// architecture in place of its target, if that can be a target.
    pub environment: &'a Env,
}

/// The packages that may meet a relation, and its environment.
#[derive(Clone, Copy)]
pub(crate) struct Candidates<'a> {
    pub(crate) index: &'a Index,
    pub(crate) environment: &'a Env,
}
