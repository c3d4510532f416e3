//! Numbers in lists, and of each number the rows that contain it. The search uses these; nothing
//! that is proved depends on them.

use crate::health::row_of;
use crate::rows::Rows;
use crate::universe::Universe;
use std::alloc::{AllocError, Global};

/// Returns a length as a number of 32 bits, of a greater one the greatest such number.
pub(crate) fn narrow(length: usize) -> u32 {
    if length < 0xffff_ffff {
        length as u32
    } else {
        0xffff_ffff
    }
}

/// Returns the number at an index, or a default.
pub(crate) fn number_or(numbers: &[u32], at: u32, default: u32) -> u32 {
    numbers.get(at as usize).copied().unwrap_or(default)
}

/// Writes a number at an index, if there is one.
pub(crate) fn put(numbers: &mut Vec<u32>, at: u32, number: u32) {
    if (at as usize) < numbers.len() {
        numbers[at as usize] = number;
    }
}

/// Of each number the rows that contain it.
#[derive(Drop)]
pub(crate) struct Inverse {
    rows: Vec<u32>,
    /// Where the number is in each of these rows, or nothing.
    places: Vec<u32>,
    ends: Vec<u32>,
}

impl Inverse {
    /// Finds the rows that contain each number below a count.
    pub(crate) fn of(alloc: Global, rows: &Rows, count: usize) -> Result<Self, AllocError> {
        Self::found(alloc, rows, count, false)
    }

    /// Finds them, and where the numbers are in them.
    fn with_places(alloc: Global, rows: &Rows, count: usize) -> Result<Self, AllocError> {
        Self::found(alloc, rows, count, true)
    }

    fn found(
        alloc: Global,
        rows: &Rows,
        count: usize,
        has_places: bool,
    ) -> Result<Self, AllocError> {
        let mut ends = vec![in alloc; 0u32; count]?;
        for row in 0..narrow(rows.len()) {
            for number in row_of(rows, row) {
                let known = number_or(&ends, *number, 0);
                put(&mut ends, *number, known.wrapping_add(1));
            }
        }
        let total = starts_of(&mut ends);
        let mut found = vec![in alloc; 0u32; total as usize]?;
        let mut places = vec![in alloc; 0u32; if has_places { total as usize } else { 0 }]?;
        for row in 0..narrow(rows.len()) {
            for (place, number) in row_of(rows, row).iter().enumerate() {
                let at = number_or(&ends, *number, u32::MAX);
                put(&mut found, at, row);
                put(&mut places, at, narrow(place));
                put(&mut ends, *number, at.wrapping_add(1));
            }
        }
        Ok(Inverse {
            rows: found,
            places,
            ends,
        })
    }

    /// Returns the rows that contain a number, in order.
    pub(crate) fn rows_with(&self, number: u32) -> &[u32] {
        self.part(&self.rows, number)
    }

    /// Returns where the number is in each of these rows.
    pub(crate) fn places_of(&self, number: u32) -> &[u32] {
        self.part(&self.places, number)
    }

    /// Returns what a list has for a number.
    fn part<'n>(&self, numbers: &'n [u32], number: u32) -> &'n [u32] {
        let start = if number == 0 {
            0
        } else {
            number_or(&self.ends, number.wrapping_sub(1), u32::MAX)
        };
        let end = number_or(&self.ends, number, 0);
        match numbers.get(start as usize..end as usize) {
            Some(part) => part,
            None => &[],
        }
    }
}

/// Replaces lengths by where each part starts; returns their sum.
fn starts_of(lengths: &mut Vec<u32>) -> u32 {
    let mut total = 0u32;
    for at in 0..lengths.len() {
        let length = lengths[at];
        lengths[at] = total;
        total = total.wrapping_add(length);
    }
    total
}

/// What the search looks up.
#[derive(Drop)]
pub(crate) struct Tables {
    /// Of each package the groups that it meets.
    pub(crate) met_by: Inverse,
    /// Of each group the packages that need it.
    pub(crate) needers: Inverse,
    /// Of each package those that exclude it.
    pub(crate) excluders: Inverse,
}

impl Tables {
    pub(crate) fn of(alloc: Global, universe: &Universe) -> Result<Self, AllocError> {
        Ok(Tables {
            met_by: Inverse::of(alloc, &universe.groups, universe.needs.len())?,
            needers: Inverse::of(alloc, &universe.needs, universe.groups.len())?,
            excluders: Inverse::with_places(alloc, &universe.excludes, universe.needs.len())?,
        })
    }
}
