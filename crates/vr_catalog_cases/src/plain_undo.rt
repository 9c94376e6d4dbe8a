//! A plain, slow program that keeps what units of recovery changed: two lists of rows, each with
//! the number of the call that made it. It shares no code with `vr_undo`.

use std::alloc::Global;
use vr_types::OutOfMemory;

/// A before-image: the call that made it, its unit, part and place, and how long the record was.
#[derive(Clone, Copy, PartialEq, Eq)]
pub struct Row {
    pub call: u32,
    pub unit: u32,
    pub part: u32,
    pub place: u8,
    pub length: Option<u32>,
}

/// What the log has, and what units may put back.
#[derive(Drop)]
pub struct PlainUndo {
    logged: Vec<Row>,
    kept: Vec<Row>,
}

impl PlainUndo {
    /// Nothing.
    pub fn new(alloc: Global) -> PlainUndo {
        PlainUndo {
            logged: Vec::new(alloc),
            kept: Vec::new(alloc),
        }
    }

    /// A change of a cluster. It says whether anything is new.
    pub fn keep(&mut self, row: Row) -> Result<bool, OutOfMemory> {
        let logged = add(&mut self.logged, row)?;
        let kept = add(&mut self.kept, row)?;
        Ok(logged || kept)
    }

    /// A change of an alternate index.
    pub fn keep_pair(&mut self, row: Row) -> Result<bool, OutOfMemory> {
        add(&mut self.logged, row)
    }

    /// What the last call that made anything at the place made goes.
    pub fn unkeep(&mut self, unit: u32, part: u32, place: u8) {
        let mut call = 0;
        for row in self.logged.iter().chain(self.kept.iter()) {
            if is_at(row, unit, part, place) && row.call > call {
                call = row.call;
            }
        }
        self.logged.retain(|row| row.call != call);
        self.kept.retain(|row| row.call != call);
    }

    /// The unit's last one that it may put back.
    pub fn last(&self, unit: u32) -> Option<Row> {
        let mut last = None;
        for row in &self.kept {
            if row.unit == unit {
                last = Some(*row);
            }
        }
        last
    }

    /// Takes it out.
    pub fn take(&mut self, unit: u32) -> Option<Row> {
        let taken = self.last(unit)?;
        self.kept.retain(|row| row.call != taken.call);
        Some(taken)
    }

    /// The unit ends.
    pub fn end(&mut self, unit: u32) {
        self.logged.retain(|row| row.unit != unit);
        self.kept.retain(|row| row.unit != unit);
    }

    /// Whether the log has the place.
    pub fn is_logged(&self, unit: u32, part: u32, place: u8) -> bool {
        has(&self.logged, unit, part, place)
    }

    /// The longest record at a place.
    pub fn longest(&self, part: u32, place: u8) -> Option<u32> {
        let mut longest = None;
        for row in &self.logged {
            if row.part == part && row.place == place && row.length > longest {
                longest = row.length;
            }
        }
        longest
    }

    /// The least place with a record that is this one or past it.
    pub fn least_from(&self, part: u32, from: u8) -> Option<u8> {
        for place in from..3u8 {
            if self.longest(part, place).is_some() {
                return Some(place);
            }
        }
        None
    }
}

/// Whether a row is of a unit's place.
fn is_at(row: &Row, unit: u32, part: u32, place: u8) -> bool {
    row.unit == unit && row.part == part && row.place == place
}

fn has(rows: &[Row], unit: u32, part: u32, place: u8) -> bool {
    for row in rows {
        if is_at(row, unit, part, place) {
            return true;
        }
    }
    false
}

/// Adds a row, where there is none of its place.
fn add(rows: &mut Vec<Row>, row: Row) -> Result<bool, OutOfMemory> {
    if has(rows, row.unit, row.part, row.place) {
        return Ok(false);
    }
    rows.push(row)?;
    Ok(true)
}
