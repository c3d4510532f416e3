//! What follows from the packages in the set.

use super::{Cause, Conflict, Search, Value};
use crate::health::row_of;
use crate::refuter::{Reason, Refuter};
use crate::tables::{narrow, number_or, put};
use std::alloc::AllocError;

impl Search<'_> {
    /// Goes over the trail to its end, or to a conflict.
    pub(super) fn propagate(
        &mut self,
        known: &Refuter<'_>,
        level: u32,
    ) -> Result<Option<Conflict>, AllocError> {
        for _ in 0..self.value.len() {
            let Some(package) = self.trail.get(self.head).copied() else {
                break;
            };
            self.head = self.head.saturating_add(1);
            let conflict = if self.value_of(package) == Value::In {
                self.enter(known, package, level)?
            } else {
                self.leave(known, package, level)?
            };
            if conflict.is_some() {
                return Ok(conflict);
            }
        }
        Ok(None)
    }

    /// A package is in the set.
    fn enter(
        &mut self,
        known: &Refuter<'_>,
        package: u32,
        level: u32,
    ) -> Result<Option<Conflict>, AllocError> {
        let conflict = self.exclude(known, package, level)?;
        if conflict.is_some() {
            return Ok(conflict);
        }
        let conflict = self.exclude_excluders(package, level)?;
        if conflict.is_some() {
            return Ok(conflict);
        }
        let conflict = self.visit_watches(known, package, level)?;
        if conflict.is_some() {
            return Ok(conflict);
        }
        self.activate(known, package, level)
    }

    /// Puts what a package excludes out of the set.
    fn exclude(
        &mut self,
        known: &Refuter<'_>,
        package: u32,
        level: u32,
    ) -> Result<Option<Conflict>, AllocError> {
        let row = row_of(&known.universe.excludes, package);
        self.look(row.len());
        for (at, other) in row.iter().enumerate() {
            let by = package;
            let at = narrow(at);
            match self.value_of(*other) {
                Value::In => return Ok(Some(Conflict::Both { by, at })),
                Value::Out => {}
                Value::Open => self.put_out(*other, Reason::Excluded { by, at }, level)?,
            }
        }
        Ok(None)
    }

    /// Puts what excludes a package out of the set.
    fn exclude_excluders(
        &mut self,
        package: u32,
        level: u32,
    ) -> Result<Option<Conflict>, AllocError> {
        let tables = self.tables;
        let rows = tables.excluders.rows_with(package);
        let places = tables.excluders.places_of(package);
        self.look(rows.len());
        for (index, by) in rows.iter().enumerate() {
            let by = *by;
            let at = number_or(places, narrow(index), u32::MAX);
            match self.value_of(by) {
                Value::In => return Ok(Some(Conflict::Both { by, at })),
                Value::Out => {}
                Value::Open => self.put_out(by, Reason::Excluded { by, at }, level)?,
            }
        }
        Ok(None)
    }

    /// Begins to meet the groups that a package needs.
    fn activate(
        &mut self,
        known: &Refuter<'_>,
        package: u32,
        level: u32,
    ) -> Result<Option<Conflict>, AllocError> {
        let row = row_of(&known.universe.needs, package);
        self.look(row.len());
        for (at, group) in row.iter().enumerate() {
            if !self.is_active(*group) {
                let need = Cause::Need {
                    member: package,
                    at: narrow(at),
                };
                self.set_needer(*group, need);
                self.active.push(*group)?;
                self.active_level.push(level)?;
                let conflict = self.examine(known, *group, level)?;
                if conflict.is_some() {
                    return Ok(conflict);
                }
            }
        }
        Ok(None)
    }

    fn is_active(&self, group: u32) -> bool {
        match self.needer_of(group) {
            Cause::Chosen => false,
            Cause::Need { .. } => true,
        }
    }

    /// A package is out of the set: the groups that it meets have one candidate less.
    fn leave(
        &mut self,
        known: &Refuter<'_>,
        package: u32,
        level: u32,
    ) -> Result<Option<Conflict>, AllocError> {
        let tables = self.tables;
        let rows = tables.met_by.rows_with(package);
        let mut conflict = None;
        self.look(rows.len());
        for group in rows {
            let left = self.live_of(*group).wrapping_sub(1);
            put(&mut self.live, *group, left);
            if conflict.is_none() && self.is_active(*group) {
                conflict = self.examine(known, *group, level)?;
            }
        }
        Ok(conflict)
    }

    /// Puts the last candidate of a group into the set; it's a conflict if there is none.
    fn examine(
        &mut self,
        known: &Refuter<'_>,
        group: u32,
        level: u32,
    ) -> Result<Option<Conflict>, AllocError> {
        if self.live_of(group) > 1 {
            return Ok(None);
        }
        let mut is_met = false;
        let mut last = None;
        let row = row_of(&known.universe.groups, group);
        self.look(row.len());
        for candidate in row {
            match self.value_of(*candidate) {
                Value::In => is_met = true,
                Value::Out => {}
                Value::Open => last = Some(*candidate),
            }
        }
        if is_met {
            return Ok(None);
        }
        match last {
            None => Ok(Some(Conflict::Unmet(group))),
            Some(candidate) => {
                let cause = self.needer_of(group);
                self.put_in(candidate, cause, level)?;
                Ok(None)
            }
        }
    }
}
