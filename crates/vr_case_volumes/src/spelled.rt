//! Volumes with entries that a text spells.

use crate::answers::{Answer, Stop};
use crate::volumes::cluster;
use std::alloc::Global;
use vr_catalog::{CatEntry, Catalog, EntryKind};
use vr_device::MemoryDevice;
use vr_format::{FormatNo, format_entries};
use vr_types::{Kind, PartNo};

/// Formats a device as a volume with the entries that a text spells, and answers what formatting does:
/// `NUMBER LOG AREA / NAME KIND PART KEY OFFSET AVERAGE MAXIMUM / ..`. The number has at most two digits, and KIND is
/// K, E, R or A: a cluster of a kind, or an alternate index.
pub fn format_spelled(
    alloc: Global,
    device: &mut MemoryDevice,
    text: &str,
) -> Result<Result<(), FormatNo>, Stop> {
    let (shape, rest) = text.split_once(" / ").unwrap_or((text, ""));
    let words = numbers(alloc, shape)?;
    let [number, log, area] = words.as_slice() else {
        return Err(Stop::Case);
    };
    if *number > 99 {
        return Err(Stop::Case);
    }
    let catalog = catalog_of(alloc, rest)?;
    let entries = catalog.as_slice();
    Ok(format_entries(alloc, device, *number, *log, *area, entries))
}

/// The entries that a text spells.
fn catalog_of(alloc: Global, text: &str) -> Result<Catalog, Stop> {
    let mut catalog = Catalog::new(alloc);
    match add_entries(alloc, &mut catalog, text) {
        Ok(()) => Ok(catalog),
        Err(stop) => Err(stop),
    }
}

fn add_entries(alloc: Global, catalog: &mut Catalog, text: &str) -> Answer {
    for text in text.split(" / ") {
        if !text.is_empty() {
            catalog.push(entry_of(alloc, text)?)?;
        }
    }
    Ok(())
}

/// The entry that a text spells.
fn entry_of(alloc: Global, text: &str) -> Result<CatEntry, Stop> {
    let (name, rest) = parted(text);
    let (word, rest) = parted(rest);
    let sizes = numbers(alloc, rest)?;
    let [part, key, offset, average, maximum] = sizes.as_slice() else {
        return Err(Stop::Case);
    };
    let mut entry = cluster(alloc, name, kind_of(word)?, *maximum)?;
    entry.part = PartNo(*part);
    entry.first_area = None;
    entry.key_length = (*key % 65_536) as u16;
    entry.key_offset = (*offset % 65_536) as u16;
    entry.average = *average;
    if word == "A" {
        entry.entry_kind = EntryKind::Alternate;
    }
    Ok(entry)
}

/// The kind that a word spells.
fn kind_of(word: &str) -> Result<Kind, Stop> {
    match word {
        "K" | "A" => Ok(Kind::Keyed),
        "E" => Ok(Kind::Entry),
        "R" => Ok(Kind::Relative),
        _ => Err(Stop::Case),
    }
}

/// The first word of a text and what comes after it, which may be nothing.
fn parted(text: &str) -> (&str, &str) {
    text.split_once(' ').unwrap_or((text, ""))
}

/// The numbers that words spell.
fn numbers(alloc: Global, text: &str) -> Result<Vec<u32>, Stop> {
    let mut numbers = Vec::new(alloc);
    match add_numbers(&mut numbers, text) {
        Ok(()) => Ok(numbers),
        Err(stop) => Err(stop),
    }
}

fn add_numbers(numbers: &mut Vec<u32>, text: &str) -> Answer {
    for word in text.split_whitespace() {
        numbers.push(word.parse().ok().ok_or(Stop::Case)?)?;
    }
    Ok(())
}
