//! Which packages are in the set, and why.

use super::{Cause, Search, Value};
use crate::refuter::Reason;
use crate::tables::{narrow, number_or, put};
use std::alloc::AllocError;

impl Search<'_> {
    pub(super) fn value_of(&self, package: u32) -> Value {
        match self.value.get(package as usize) {
            Some(value) => *value,
            None => Value::Out,
        }
    }

    fn set_value(&mut self, package: u32, value: Value) {
        if (package as usize) < self.value.len() {
            self.value[package as usize] = value;
        }
    }

    pub(super) fn level_of(&self, package: u32) -> u32 {
        number_or(&self.level, package, 0)
    }

    pub(super) fn place_of(&self, package: u32) -> u32 {
        number_or(&self.place, package, 0)
    }

    pub(super) fn live_of(&self, group: u32) -> u32 {
        number_or(&self.live, group, 0)
    }

    /// Returns whether several packages can meet a group.
    pub(crate) fn is_choice(&self, group: u32) -> bool {
        self.live_of(group) > 1
    }

    pub(super) fn cause_of(&self, package: u32) -> Cause {
        match self.cause.get(package as usize) {
            Some(cause) => *cause,
            None => Cause::Chosen,
        }
    }

    pub(super) fn reason_of(&self, package: u32) -> Reason {
        match self.reason.get(package as usize) {
            Some(reason) => *reason,
            None => Reason::Out,
        }
    }

    pub(super) fn needer_of(&self, group: u32) -> Cause {
        match self.needer.get(group as usize) {
            Some(cause) => *cause,
            None => Cause::Chosen,
        }
    }

    pub(super) fn set_needer(&mut self, group: u32, cause: Cause) {
        if (group as usize) < self.needer.len() {
            self.needer[group as usize] = cause;
        }
    }

    pub(super) fn put_in(
        &mut self,
        package: u32,
        cause: Cause,
        level: u32,
    ) -> Result<(), AllocError> {
        if (package as usize) < self.cause.len() {
            self.cause[package as usize] = cause;
        }
        self.assign(package, Value::In, level)
    }

    pub(super) fn put_out(
        &mut self,
        package: u32,
        reason: Reason,
        level: u32,
    ) -> Result<(), AllocError> {
        if (package as usize) < self.reason.len() {
            self.reason[package as usize] = reason;
        }
        self.assign(package, Value::Out, level)
    }

    fn assign(&mut self, package: u32, value: Value, level: u32) -> Result<(), AllocError> {
        let place = narrow(self.trail.len());
        self.trail.push(package)?;
        self.set_value(package, value);
        put(&mut self.level, package, level);
        put(&mut self.place, package, place);
        Ok(())
    }

    /// Leaves a package out of all sets.
    pub(super) fn lose(&mut self, package: u32) {
        self.set_value(package, Value::Out);
        put(&mut self.level, package, 0);
        if (package as usize) < self.reason.len() {
            self.reason[package as usize] = Reason::Out;
        }
    }

    /// Takes back what was assigned above a level.
    pub(crate) fn undo(&mut self, level: u32) {
        for _ in 0..self.trail.len() {
            let Some(package) = self.trail.last().copied() else {
                break;
            };
            if self.level_of(package) <= level {
                break;
            }
            let _ = self.trail.pop();
            if self.value_of(package) == Value::Out && self.trail.len() < self.head {
                self.restore(package);
            }
            self.set_value(package, Value::Open);
        }
        if self.head > self.trail.len() {
            self.head = self.trail.len();
        }
        self.deactivate(level);
        self.met_before.truncate(level as usize);
    }

    /// The groups of a package that was out of the set have one candidate more.
    fn restore(&mut self, package: u32) {
        for group in self.tables.met_by.rows_with(package) {
            let live = self.live_of(*group);
            put(&mut self.live, *group, live.wrapping_add(1));
        }
    }

    fn deactivate(&mut self, level: u32) {
        for _ in 0..self.active.len() {
            let Some(last) = self.active_level.last().copied() else {
                break;
            };
            if last <= level {
                break;
            }
            let _ = self.active_level.pop();
            if let Some(group) = self.active.pop() {
                self.set_needer(group, Cause::Chosen);
            }
        }
    }
}
