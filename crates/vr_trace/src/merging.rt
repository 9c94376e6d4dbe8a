//! The histories of the volumes as one.
ghost use Rattle.std.specs.Prelude.{◌≡◌, ◌<◌, ◌++◌, map, length, slice_get, IfOk, OnOk};
ghost use Rattle.std.specs.Prelude.{MatchOption, Some, None};
ghost use Rattle.vr_history.specs.Merged.{Numbered, merged, numbered_from};
ghost use Rattle.vr_trace.specs.Numbering.{numbered_of, with_volume};
ghost use Rattle.vr_trace.specs.Volumes.{entries_of};

use crate::histories::Histories;
use std::alloc::Global;
use std::marker::Model;
use vr_history::{Entry, History};
use vr_types::OutOfMemory;

/// An entry, which stays in its history, with the number of its volume.
#[derive(Clone, Copy)]
pub(crate) struct NumberedEntry<'a> {
    pub(crate) volume: usize,
    pub(crate) entry: &'a Entry,
}

/// The one history of several volumes: entries by their stamps, and those of one stamp by the
/// numbers of their volumes. The entries are borrowed.
#[derive(Drop)]
pub struct Merged<'a> {
    entries: Vec<NumberedEntry<'a>>,
}

impl<'a> Model for Merged<'a> {
    ghost use Rattle.std.specs.Prelude.{List, map};
    ghost use Rattle.vr_history.specs.Merged.{Numbered};

    ghost Value = { List Numbered };

    ghost use Rattle.vr_trace.specs.Numbering.{numbered_of};

    ghost view = { λ merged. map numbered_of merged.entries.items };
}

impl<'a> Merged<'a> {
    /// How many entries.
    pub fn len(&self) -> usize
        ensures { result ≡ length self.now }
    {
        self.entries.len()
    }

    /// The entry at a place, from 0, with the number of its volume; none past the end.
    pub fn get(&self, at: usize) -> Option<(usize, &'a Entry)>
        ensures { MatchOption result (slice_get self.now at ≡ None)
            (λ found. slice_get self.now at ≡ Some (with_volume found.0 found.1.now)) }
    {
        match self.entries.get(at) {
            Some(this) => Some((this.volume, this.entry)),
            None => None,
        }
    }

    /// The entries, first to last.
    pub(crate) fn as_slice(&self) -> &[NumberedEntry<'a>]
        ensures { map numbered_of result.now ≡ self.now }
    {
        self.entries.as_slice()
    }
}

/// The one history of the volumes. Out of memory is its one error.
pub fn merge<'a>(alloc: Global, histories: &'a Histories) -> Result<Merged<'a>, OutOfMemory>
    ensures { IfOk result (λ all. all ≡ merged histories.now) }
{
    let mut entries = Vec::new(alloc);
    number_all(&mut entries, histories.as_slice())?;
    entries.sort_by_key(|this| (this.entry.stamp, this.volume))?;
    Ok(Merged { entries })
}

/// Adds the entries of all volumes, with their volumes.
fn number_all<'a>(
    entries: &mut Vec<NumberedEntry<'a>>,
    histories: &'a [History],
) -> Result<(), OutOfMemory>
    ensures { OnOk result (map numbered_of entries.new.items
        ≡ map numbered_of entries.old.items ++ numbered_from 0 (entries_of histories.now)) }
{
    for (volume, history) in histories.iter().enumerate() {
        number_one(entries, volume, history.entries())?;
    }
    Ok(())
}

/// Adds the entries of one volume, with its number.
fn number_one<'a>(
    entries: &mut Vec<NumberedEntry<'a>>,
    volume: usize,
    history: &'a [Entry],
) -> Result<(), OutOfMemory>
    ensures { OnOk result (map numbered_of entries.new.items ≡ map numbered_of entries.old.items
        ++ map (with_volume volume) history.now) }
{
    for entry in history {
        entries.push(NumberedEntry { volume, entry })?;
    }
    Ok(())
}
