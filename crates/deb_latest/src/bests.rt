//! The latest version of each package so far.

ghost use Rattle.std.specs.Prelude.{◌≡◌, ℕ, List, Option, cond, IfOk, OnOk, Some};
ghost use Rattle.std.specs.Option.{option_map, option_copied};
ghost use Rattle.std.specs.Str.{bytes_eq};
ghost use Rattle.deb_version.specs.Parts.{Meaning};
ghost use Rattle.deb_latest.specs.BestOf.{AreNumbered};
ghost use Rattle.deb_latest.specs.Bests.{AreBests, best_kept, best_under, is_later_kept, later_kept};
ghost use Rattle.deb_latest.specs.Winning.{Entry, winners};

use indexmap::IndexMap;
use std::alloc::{AllocError, Global};

/// The latest version of a package, by its key, and the number of the first paragraph that has it.
#[derive(Drop)]
pub(crate) struct Best {
    pub(crate) version: Vec<u8>,
    pub(crate) number: u64,
}

/// The best paragraph of each package, by what tells the package from others.
pub(crate) type Bests = IndexMap<Vec<u8>, Best>;

/// Puts the paragraph with a number, if its version is later than the latest of its package.
pub(crate) fn put(
    alloc: Global,
    bests: &mut Bests,
    key: &[u8],
    version: &[u8],
    number: u64,
) -> Result<(), AllocError>
    ensures { OnOk result ((other : List ℕ) → best_under bests.new other
        ≡ cond (bytes_eq key.now other)
        (Some (later_kept (best_under bests.old key.now) (version.now, number)))
        (best_under bests.old other)) }
{
    if !is_later(bests.get(key), version) {
        return Ok(());
    }
    let best = Best {
        version: Vec::from_slice(alloc, version)?,
        number,
    };
    bests.insert(Vec::from_slice(alloc, key)?, best)?;
    Ok(())
}

/// Returns whether a version is later than that of the best paragraph, or there is none.
fn is_later(best: Option<&Best>, version: &[u8]) -> bool
    ensures { result ≡ is_later_kept (option_map best_kept (option_copied best.entry)) version.now }
{
    match best {
        None => true,
        Some(best) => version.cmp(best.version.as_slice()).is_gt(),
    }
}

/// Returns the numbers of the best paragraphs in ascending order.
pub(crate) fn numbers(alloc: Global, bests: &Bests) -> Result<Vec<u64>, AllocError>
    ensures { (limit : Option Meaning) (entries : List Entry) → AreNumbered 0 entries
        → AreBests limit entries bests.now
        → IfOk result (λ numbers. numbers.items ≡ winners limit entries) }
{
    let mut numbers: Vec<u64> = bests.iter().map(|(_, best)| best.number).collect(alloc)?;
    numbers.sort_unstable();
    numbers.dedup();
    Ok(numbers)
}
