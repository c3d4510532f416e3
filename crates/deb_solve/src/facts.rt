//! What a universe says of its packages: a fact for each number in their rows.

ghost use Rattle.std.specs.Prelude.{◌≡◌};
ghost use Rattle.std.specs.List.{list_all};
ghost use Rattle.deb_solve.specs.Reasons.{is_fact};

use crate::health::row_of;
use crate::universe::Universe;

/// Something that a universe says of a package.
#[derive(Clone, Copy, PartialEq, Eq)]
pub enum Fact {
    /// The member needs the group at this index of its row.
    Needs { member: u32, at: u32 },
    /// The package excludes the one at this index of its row.
    Excludes { by: u32, at: u32 },
}

/// Returns whether a universe says each of these facts.
pub(crate) fn are_facts(universe: &Universe, facts: &[Fact]) -> bool
    ensures { result ≡ list_all (is_fact universe.now) facts.now }
{
    for fact in facts {
        if !is_fact(universe, *fact) {
            return false;
        }
    }
    true
}

fn is_fact(universe: &Universe, fact: Fact) -> bool
    ensures { result ≡ is_fact universe.now fact }
{
    match fact {
        Fact::Needs { member, at } => {
            (member as usize) < universe.needs.len()
                && (at as usize) < row_of(&universe.needs, member).len()
        }
        Fact::Excludes { by, at } => {
            (by as usize) < universe.needs.len()
                && (at as usize) < row_of(&universe.excludes, by).len()
        }
    }
}
