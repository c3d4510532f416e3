//! The groups that packages need, each different one once.

ghost use Rattle.std.specs.Prelude.{◌≡◌, [], Some, IfOk, IsTrue, slice_get};
ghost use Rattle.deb_install.specs.Building.{HasRow};

use deb_solve::Rows;
use indexmap::IndexMap;
use std::alloc::{AllocError, Global};

/// The groups that packages need, as rows of the numbers of the packages that meet them.
#[derive(Drop)]
pub(crate) struct Groups {
    pub(crate) rows: Rows,
    /// The last row with each hash. A wrong number costs a repeated row alone.
    hashed: IndexMap<u64, u32>,
}

impl Groups {
    /// There are none.
    pub(crate) fn new(alloc: Global) -> Groups
        ensures { result.rows ≡ [] }
    {
        Groups {
            rows: Rows::new(alloc),
            hashed: IndexMap::new(alloc),
        }
    }

    /// Returns the rows.
    pub(crate) fn into_rows(self) -> Rows
        ensures { result ≡ self.rows }
    {
        self.rows
    }

    /// Returns the number of a group with this row, which is appended if there is none yet.
    pub(crate) fn number_of(&mut self, row: &[u32]) -> Result<u32, AllocError>
        ensures { IfOk result (λ number. HasRow self.old.rows self.new.rows row.now number) }
    {
        let hash = hash_of(row);
        let found = self.hashed.get(&hash).copied();
        if let Some(number) = found {
            if is_row(&self.rows, number, row) {
                return Ok(number);
            }
        }
        let Ok(number) = u32::try_from(self.rows.len()) else {
            return Err(AllocError);
        };
        self.rows.push_row(row)?;
        self.hashed.insert(hash, number)?;
        Ok(number)
    }
}

/// Returns whether the row with this number is this one.
fn is_row(rows: &Rows, number: u32, row: &[u32]) -> bool
    ensures { IsTrue result → slice_get rows.now number ≡ Some row.now }
{
    match rows.row(number) {
        Some(found) => found == row,
        None => false,
    }
}

/// Returns a number that is seldom that of another row.
fn hash_of(row: &[u32]) -> u64 {
    let mut hash = 0xcbf2_9ce4_8422_2325u64;
    for number in row {
        hash = (hash ^ u64::from(*number)).wrapping_mul(0x0100_0000_01b3);
        hash ^= hash >> 29;
    }
    hash
}
