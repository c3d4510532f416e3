//! Elements that aren't paired yet, by their keys.

ghost use Rattle.std.specs.Prelude.{◌≡◌, ◌++◌, [], ◌∷◌, ℕ, List, cond, OnOk};
ghost use Rattle.std.specs.Str.{bytes_eq};
ghost use Rattle.deb_diff.specs.Waiting.{first_of, numbers_in, numbers_under, rest_of};

use std::alloc::{AllocError, Global};
use std::collections::{BTreeMap, VecDeque};

/// The numbers of elements that aren't paired yet, ascending, under their keys. Keys are found by
/// their lengths first, in which most differ, and then by their order, since a file can be made of
/// keys whose hashes are equal.
#[derive(Drop)]
pub(crate) struct Waiting<'a> {
    lengths: BTreeMap<usize, Numbers<'a>>,
}

/// The numbers under keys of one length.
type Numbers<'a> = BTreeMap<&'a [u8], VecDeque<usize>>;

impl<'a> Waiting<'a> {
    /// No element waits. Takes no memory.
    pub(crate) fn new(alloc: Global) -> Waiting<'a>
        ensures { (key : List ℕ) → numbers_under result key ≡ [] }
    {
        Waiting {
            lengths: BTreeMap::new(alloc),
        }
    }

    /// Adds a number to those under a key.
    pub(crate) fn push(
        &mut self,
        alloc: Global,
        key: &'a [u8],
        number: usize,
    ) -> Result<(), AllocError>
        ensures { OnOk result ((other : List ℕ) → numbers_under self.new other
            ≡ cond (bytes_eq key.now other) (numbers_under self.old other ++ number ∷ [])
            (numbers_under self.old other)) }
    {
        let length = key.len();
        if let Some(numbers) = self.lengths.get_mut(&length) {
            return push_under(alloc, numbers, key, number);
        }
        let mut numbers = BTreeMap::new(alloc);
        push_under(alloc, &mut numbers, key, number)?;
        self.lengths.insert(length, numbers)?;
        Ok(())
    }

    /// Takes the first of the numbers under a key away, and returns it.
    pub(crate) fn take(&mut self, key: &[u8]) -> Option<usize>
        ensures first { result ≡ first_of (numbers_under self.old key.now) }
        ensures rest { (other : List ℕ) → numbers_under self.new other
            ≡ cond (bytes_eq key.now other) (rest_of (numbers_under self.old other))
            (numbers_under self.old other) }
    {
        let length = key.len();
        let Some(numbers) = self.lengths.get_mut(&length) else {
            return None;
        };
        take_under(numbers, key)
    }
}

/// Adds a number to those under a key of one length.
fn push_under<'a>(
    alloc: Global,
    map: &mut Numbers<'a>,
    key: &'a [u8],
    number: usize,
) -> Result<(), AllocError>
    ensures { OnOk result ((other : List ℕ) → numbers_in map.new other
        ≡ cond (bytes_eq key.now other) (numbers_in map.old other ++ number ∷ [])
        (numbers_in map.old other)) }
{
    let mut numbers = VecDeque::new(alloc);
    numbers.push_back(number)?;
    if let Some(mut earlier) = map.insert(key, numbers)? {
        earlier.push_back(number)?;
        map.insert(key, earlier)?;
    }
    Ok(())
}

/// Takes the first of the numbers under a key of one length away, and returns it.
fn take_under(map: &mut Numbers<'_>, key: &[u8]) -> Option<usize>
    ensures first { result ≡ first_of (numbers_in map.old key.now) }
    ensures rest { (other : List ℕ) → numbers_in map.new other
        ≡ cond (bytes_eq key.now other) (rest_of (numbers_in map.old other))
        (numbers_in map.old other) }
{
    let Some(numbers) = map.get_mut(key) else {
        return None;
    };
    numbers.pop_front()
}
