//! An alternative of a group: a package name with its conditions.

ghost use Rattle.std.specs.Prelude.{◌≡◌, ◌++◌, IfOk, OnOk, map};
ghost use Rattle.std.specs.List.{list_all, list_any};
ghost use Rattle.std.specs.Str.{bytes_eq};
ghost use Rattle.std.specs.Option.{option_copied, option_map};
ghost use Rattle.deb_relation.specs.Reading.{alternative_with, read_alternative};
ghost use Rattle.deb_relation.specs.Stops.{Gives};
ghost use Rattle.deb_relation.specs.Texts.{alternative_text, architectures_text, bound_text, formula_text, qualifier_text};
ghost use Rattle.deb_relation.specs.Applying.{all_hold, formula_applies, is_among, item_holds, list_applies};
ghost use Rattle.deb_relation.specs.Environments.{environment_of};
ghost use Rattle.deb_relation.specs.Views.{asked_bound, asked_qualifier, bound_of, item_of, items_of, list_of, listed_formula, listed_names, name_key, names_of, restrictions_of};

use crate::architectures::{append_architectures, read_architectures};
use crate::asked::{Asked, append_qualifier};
use crate::bound::{append_bound, bound_is_equal, read_bound};
use crate::cursor::skip_white;
use crate::environment::Env;
use crate::fault::Stop;
use crate::formula::{append_formula, read_formula};
use crate::lists::Lists;
use crate::name::{read_name, read_qualifier};
use crate::operator::Op;
use deb_version::Version;
use std::alloc::{AllocError, Global};

/// How many bytes most bounds have at most.
const BOUND_ROOM: usize = 24;

/// A package name with its conditions (Debian Policy 7.1). Most have none, so each kind of them is
/// a block of its own.
#[derive(Debug, Drop)]
pub struct Alternative<'a> {
    pub(crate) name: &'a [u8],
    pub(crate) asked: Option<Box<Asked<'a>>>,
    pub(crate) lists: Option<Box<Lists<'a>>>,
}

impl<'a> Alternative<'a> {
    ghost use Rattle.deb_relation.specs.Applying.{applies};
    ghost use Rattle.deb_relation.specs.Environments.{environment_of};
    ghost use Rattle.deb_relation.specs.Tests.{has_equal_bound, has_wildcard};
    ghost use Rattle.deb_relation.specs.Views.{alternative_of, lent_bound_of, lent_list_of};

    /// Returns the name of the package.
    pub fn name(&self) -> &'a [u8]
        ensures { result.now ≡ (alternative_of self.now).name }
    {
        self.name
    }

    /// Returns the qualifier after the colon: `any`, `native`, or the name of an architecture.
    pub fn qualifier(&self) -> Option<&'a [u8]>
        ensures { option_copied result ≡ (alternative_of self.now).qualifier }
    {
        match &self.asked {
            Some(asked) => asked.qualifier,
            None => None,
        }
    }

    /// Returns the operator and the version of the bound.
    pub fn bound(&self) -> Option<(Op, &Version<'a>)>
        ensures { option_map lent_bound_of result ≡ (alternative_of self.now).bound }
    {
        match &self.asked {
            Some(asked) => asked.bound(),
            None => None,
        }
    }

    /// Returns the architecture list: whether its names have `!`, and the names, ascending and each
    /// once.
    pub fn architectures(&self) -> Option<(bool, &[&'a [u8]])>
        ensures { option_map lent_list_of result ≡ (alternative_of self.now).architectures }
    {
        match &self.lists {
            Some(lists) => lists.architectures(),
            None => None,
        }
    }

    /// Returns the lists of the restriction formula. Each item is a profile with `!` (true) or
    /// without. Items and lists ascend by their texts, each once.
    pub fn formula(&self) -> &[Vec<(bool, &'a [u8])>]
        ensures { map restrictions_of result.now ≡ (alternative_of self.now).formula }
    {
        match &self.lists {
            Some(lists) => &lists.formula,
            None => &[],
        }
    }

    /// Returns whether the alternative applies to an environment: its architecture list contains
    /// the target, or with `!` doesn't; and all items of one list of its formula hold. An item
    /// holds if its profile is active, or with `!` if it isn't. An alternative without a list and
    /// a formula applies.
    pub fn applies(&self, environment: &Env) -> bool
        ensures { result ≡ applies (alternative_of self.now) (environment_of environment.now) }
    {
        match &self.lists {
            Some(lists) => {
                list_applies(&lists.architectures, environment)
                    && formula_applies(&lists.formula, environment)
            }
            None => true,
        }
    }

    /// Returns whether the restriction formula applies, whatever the architecture list says: all
    /// items of one of its lists hold, or there is no formula.
    pub fn formula_applies(&self, environment: &Env) -> bool
        ensures { result ≡ formula_applies (alternative_of self.now).formula
            (environment_of environment.now).profiles }
    {
        match &self.lists {
            Some(lists) => formula_applies(&lists.formula, environment),
            None => true,
        }
    }

    /// Returns the canonical text: the name, the qualifier, the bound, the architecture list and
    /// the formula.
    ///
    /// # Errors
    ///
    /// Out of memory.
    pub fn text(&self, alloc: Global) -> Result<Vec<u8>, AllocError>
        ensures { IfOk result (λ text. text.items ≡ alternative_text (alternative_of self.now)) }
    {
        let mut text = Vec::with_capacity(alloc, self.name.len() + BOUND_ROOM)?;
        self.append_to(&mut text)?;
        Ok(text)
    }

    /// Whether the architecture list contains a wildcard.
    pub(crate) fn has_wildcard(&self) -> bool
        ensures { result ≡ has_wildcard (alternative_of self.now) }
    {
        match &self.lists {
            Some(lists) => lists.has_wildcard(),
            None => false,
        }
    }

    /// Whether the bound, if there is one, has the operator `=`.
    pub(crate) fn has_equal_bound(&self) -> bool
        ensures { result ≡ has_equal_bound (alternative_of self.now) }
    {
        match &self.asked {
            Some(asked) => bound_is_equal(&asked.bound),
            None => true,
        }
    }

    /// The alternative, and what is left after it and white space.
    #[tactic(auto, unfolding(crate::specs::Reading::read_alternative))]
    pub(crate) fn read(alloc: Global, text: &'a [u8]) -> Result<(Alternative<'a>, &'a [u8]), Stop>
        ensures { Gives result (λ p. (alternative_of p.0, p.1.now)) (read_alternative text.now) }
    {
        let (name, rest) = read_name(text)?;
        let (qualifier, rest) = read_qualifier(rest)?;
        let (bound, rest) = read_bound(skip_white(rest))?;
        let (architectures, rest) = read_architectures(alloc, rest)?;
        let (formula, rest) = read_formula(alloc, rest)?;
        let asked = Asked { qualifier, bound };
        let lists = Lists {
            architectures,
            formula,
        };
        Ok((Alternative::with(alloc, name, asked, lists)?, rest))
    }

    /// The alternative of these parts.
    fn with(
        alloc: Global,
        name: &'a [u8],
        asked: Asked<'a>,
        lists: Lists<'a>,
    ) -> Result<Alternative<'a>, AllocError>
        ensures { IfOk result (λ a. alternative_of a ≡ alternative_with name.entry.now
            (option_copied asked.entry.qualifier) (option_map bound_of asked.entry.bound)
            (option_map list_of lists.entry.architectures)
            (map restrictions_of lists.entry.formula.items)) }
    {
        let asked = asked.boxed(alloc)?;
        let lists = lists.boxed(alloc)?;
        Ok(Alternative { name, asked, lists })
    }

    /// Appends the canonical text.
    pub(crate) fn append_to(&self, out: &mut Vec<u8>) -> Result<(), AllocError>
        ensures { OnOk result
            (out.new.items ≡ out.old.items ++ alternative_text (alternative_of self.now)) }
    {
        out.extend_from_slice(self.name)?;
        append_asked(out, &self.asked)?;
        append_lists(out, &self.lists)
    }
}

/// Appends the qualifier and the bound.
fn append_asked(out: &mut Vec<u8>, asked: &Option<Box<Asked<'_>>>) -> Result<(), AllocError>
    ensures { OnOk result (out.new.items ≡ out.old.items
        ++ (qualifier_text (asked_qualifier asked.now) ++ bound_text (asked_bound asked.now))) }
{
    if let Some(asked) = asked {
        append_qualifier(out, asked.qualifier)?;
        append_bound(out, &asked.bound)?;
    }
    Ok(())
}

/// Appends the architecture list and the formula.
fn append_lists(out: &mut Vec<u8>, lists: &Option<Box<Lists<'_>>>) -> Result<(), AllocError>
    ensures { OnOk result (out.new.items ≡ out.old.items ++
        (architectures_text (listed_names lists.now)
        ++ formula_text (listed_formula lists.now))) }
{
    if let Some(lists) = lists {
        append_architectures(out, &lists.architectures)?;
        append_formula(out, &lists.formula)?;
    }
    Ok(())
}

/// Whether an architecture list applies.
fn list_applies(list: &Option<(bool, Vec<&[u8]>)>, environment: &Env) -> bool
    ensures { result ≡ list_applies (option_map list_of list.now)
        (environment_of environment.now).target }
{
    match list {
        None => true,
        Some((negated, names)) => is_among(environment.target(), names) != *negated,
    }
}

/// Whether a name is among names.
fn is_among(name: &[u8], names: &[&[u8]]) -> bool
    ensures { result ≡ is_among name.now (names_of names.now) }
{
    some_is(names, name)
}

/// Whether an item holds.
fn item_holds(item: (bool, &[u8]), environment: &Env) -> bool
    ensures { result ≡ item_holds (environment_of environment.now).profiles (item_of item.entry) }
{
    environment.active(item.1) != item.0
}

/// Whether all items of a list hold.
fn all_hold(items: &[(bool, &[u8])], environment: &Env) -> bool
    ensures { result ≡ all_hold (environment_of environment.now).profiles (items_of items.now) }
{
    each_holds(items, environment)
}

/// Whether a formula applies: it has no list, or all items of one hold.
fn formula_applies(lists: &[Vec<(bool, &[u8])>], environment: &Env) -> bool
    ensures { result ≡ formula_applies (map restrictions_of lists.now)
        (environment_of environment.now).profiles }
{
    lists.is_empty() || some_holds(lists, environment)
}

/// Whether all items of some list hold.
fn some_holds(lists: &[Vec<(bool, &[u8])>], environment: &Env) -> bool
    ensures { result ≡ list_any (all_hold (environment_of environment.now).profiles)
        (map restrictions_of lists.now) }
{
    some_list_holds(lists, environment)
}

fn some_is(names: &[&[u8]], name: &[u8]) -> bool
    ensures { result ≡ list_any (λ other. bytes_eq (name_key other) name.now) names.now }
{
    names.iter().any(|other| *other == name)
}

fn each_holds(items: &[(bool, &[u8])], environment: &Env) -> bool
    ensures { result ≡ list_all
        (λ item. item_holds (environment_of environment.now).profiles (item_of item)) items.now }
{
    items.iter().all(|item| item_holds(*item, environment))
}

fn some_list_holds(lists: &[Vec<(bool, &[u8])>], environment: &Env) -> bool
    ensures { result ≡ list_any
        (λ list. all_hold (environment_of environment.now).profiles (restrictions_of list))
        lists.now }
{
    lists.iter().any(|list| all_hold(list, environment))
}
