//! Rows of numbers, in two flat lists.

ghost use Rattle.std.specs.Prelude.{◌≡◌, ◌<◌, ◌≤◌, ◌-◌, [], ◌∷◌, ◌++◌, drop, length, Some, slice_get, slice_index_or, take, IfNone, IfSome, OnErr, OnOk};
ghost use Rattle.deb_solve.specs.Layout.{AreEnds, rows_from};

use std::alloc::{AllocError, Global};
use std::marker::Model;

/// Rows of numbers, of any lengths. A number and the end of a row take four bytes each.
#[derive(Drop)]
pub struct Rows {
    numbers: Vec<u32>,
    ends: Vec<u32>,
}

impl Model for Rows {
    ghost use Rattle.std.specs.Prelude.{ℕ, List, length};
    ghost use Rattle.deb_solve.specs.Layout.{AreEnds, rows_from};

    ghost Value = { List (List ℕ) };

    ghost view = { λ rows. rows_from 0 rows.numbers.items rows.ends.items };

    ghost invariant = { λ rows. AreEnds 0 (length rows.numbers.items) rows.ends.items };
}

impl Rows {
    /// Returns no rows. It takes no memory.
    pub fn new(alloc: Global) -> Self
        ensures { result ≡ [] }
    {
        Rows {
            numbers: Vec::new(alloc),
            ends: Vec::new(alloc),
        }
    }

    /// Returns the number of rows.
    pub fn len(&self) -> usize
        ensures { result ≡ length self.now }
    {
        self.ends.len()
    }

    /// Returns the row with a number, counted from 0.
    pub fn row(&self, number: u32) -> Option<&[u32]>
        ensures found { IfSome result (λ row. slice_get self.now number ≡ Some row.now) }
        ensures missing { IfNone result (length self.now ≤ number) }
    {
        row_in(&self.numbers, &self.ends, number)
    }

    /// Returns how many numbers it keeps: those of the rows, and where each row ends.
    pub fn size(&self) -> usize {
        self.numbers.len().saturating_add(self.ends.len())
    }

    /// Appends a row.
    ///
    /// # Errors
    /// - Out of memory, also if there would be more than 4,294,967,295 numbers.
    pub fn push_row(&mut self, row: &[u32]) -> Result<(), AllocError>
        ensures pushed { OnOk result (self.new ≡ self.old ++ row.now ∷ []) }
        ensures unchanged { OnErr result (self.new ≡ self.old) }
    {
        push(&mut self.numbers, &mut self.ends, row)
    }
}

fn row_in<'r>(numbers: &'r [u32], ends: &[u32], number: u32) -> Option<&'r [u32]>
    requires { AreEnds 0 (length numbers.now) ends.now }
    ensures found { IfSome result
        (λ row. slice_get (rows_from 0 numbers.now ends.now) number ≡ Some row.now) }
    ensures missing { IfNone result (length (rows_from 0 numbers.now ends.now) ≤ number) }
{
    let index = number as usize;
    if index >= ends.len() {
        return None;
    }
    let start = start_of(ends, index) as usize;
    let end = ends[index] as usize;
    Some(part(numbers, start, end))
}

fn part(numbers: &[u32], start: usize, end: usize) -> &[u32]
    requires ordered { start ≤ end }
    requires within { end ≤ length numbers.now }
    ensures { result.now ≡ take (end - start) (drop start numbers.now) }
{
    &numbers[start..end]
}

/// Returns where a row starts: where the row before it ends.
fn start_of(ends: &[u32], index: usize) -> u32
    requires { index < length ends.now }
    ensures { result ≡ slice_index_or (0 ∷ ends.now) index 0 }
{
    if index == 0 { 0 } else { ends[index - 1] }
}

fn push(numbers: &mut Vec<u32>, ends: &mut Vec<u32>, row: &[u32]) -> Result<(), AllocError>
    requires { AreEnds 0 (length numbers.old.items) ends.old.items }
    ensures ends { AreEnds 0 (length numbers.new.items) ends.new.items }
    ensures pushed { OnOk result (rows_from 0 numbers.new.items ends.new.items
        ≡ rows_from 0 numbers.old.items ends.old.items ++ row.now ∷ []) }
    ensures unchanged { OnErr result (rows_from 0 numbers.new.items ends.new.items
        ≡ rows_from 0 numbers.old.items ends.old.items) }
{
    let Some(end) = numbers.len().checked_add(row.len()) else {
        return Err(AllocError);
    };
    if end > 0xffff_ffff {
        return Err(AllocError);
    }
    ends.push(end as u32)?;
    if let Err(error) = numbers.extend_from_slice(row) {
        let _ = ends.pop();
        return Err(error);
    }
    Ok(())
}
