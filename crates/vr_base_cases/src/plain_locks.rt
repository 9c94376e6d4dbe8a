//! The rule of locks, plainly and slowly: one list, walked from its start. It shares no code with
//! the lock table. Units and names are small numbers.

use std::alloc::{AllocError, Global};

/// A lock: on which name, of which unit, and whether it is exclusive.
#[derive(Clone, Copy, PartialEq, Eq)]
pub struct PlainLock {
    pub name: u8,
    pub unit: u8,
    pub exclusive: bool,
}

/// Locks in the order in which they were taken.
#[derive(Drop)]
pub struct PlainLocks {
    locks: Vec<PlainLock>,
}

impl PlainLocks {
    /// No lock.
    pub fn new(alloc: Global) -> PlainLocks {
        PlainLocks {
            locks: Vec::new(alloc),
        }
    }

    /// The earliest lock in the way of a unit that would ask for a name.
    pub fn test(&self, unit: u8, name: u8, exclusive: bool) -> Option<PlainLock> {
        for lock in &self.locks {
            if lock.name == name && lock.unit != unit && (exclusive || lock.exclusive) {
                return Some(*lock);
            }
        }
        None
    }

    /// Gives a unit all the names, or answers with the lock in the way of the first that has one.
    pub fn ask(
        &mut self,
        unit: u8,
        names: &[u8],
        exclusive: bool,
    ) -> Result<Option<PlainLock>, AllocError> {
        for name in names {
            if let Some(lock) = self.test(unit, *name, exclusive) {
                return Ok(Some(lock));
            }
        }
        for name in names {
            self.take(unit, *name, exclusive)?;
        }
        Ok(None)
    }

    /// Raises the unit's own lock on a name, or adds one at the end.
    fn take(&mut self, unit: u8, name: u8, exclusive: bool) -> Result<(), AllocError> {
        for i in 0..self.locks.len() {
            if self.locks[i].name == name && self.locks[i].unit == unit {
                if exclusive {
                    self.locks[i].exclusive = true;
                }
                return Ok(());
            }
        }
        self.locks.push(PlainLock {
            name,
            unit,
            exclusive,
        })?;
        Ok(())
    }

    /// Takes a unit's locks away.
    pub fn end(&mut self, unit: u8) {
        self.locks.retain(|lock| lock.unit != unit);
    }
}
