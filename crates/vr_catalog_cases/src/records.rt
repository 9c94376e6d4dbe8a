//! Questions about catalog records, and about the catalog that they make.

use crate::desk::CatalogDesk;
use crate::shown::{kind_word, say_entry};
use crate::words::{name_of, put_pieces};
use std::alloc::Global;
use vr_case_table::{Answer, Answers, Stop, parted, size_of, small_of, word_of};
use vr_catalog::{CatEntry, Catalog, Definition, EntryNo, RECORD_LENGTH, read_entry, write_entry};
use vr_types::{Kind, PartNo};

/// Makes the record that later lines speak of: 204 zero bytes with pieces put into them.
pub fn make(alloc: Global, desk: &mut CatalogDesk, pieces: &str, out: &mut Answers) -> Answer {
    desk.record.clear();
    desk.record.resize(RECORD_LENGTH, 0)?;
    put_pieces(alloc, desk.record.as_mut_slice(), pieces)?;
    out.ok()
}

/// The record with other pieces.
fn edited(alloc: Global, desk: &CatalogDesk, pieces: &str) -> Result<Vec<u8>, Stop> {
    let mut record = Vec::from_slice(alloc, desk.record.as_slice())?;
    match put_pieces(alloc, record.as_mut_slice(), pieces) {
        Ok(()) => Ok(record),
        Err(stop) => Err(stop),
    }
}

/// The entry that bytes spell, or none.
pub fn entry_of(alloc: Global, bytes: &[u8]) -> Result<Option<CatEntry>, Stop> {
    match read_entry(alloc, bytes) {
        Ok(entry) => Ok(Some(entry)),
        Err(EntryNo::Misspelled) => Ok(None),
        Err(EntryNo::Memory) => Err(Stop::Memory),
    }
}

/// Some bytes of the record: `PLACE COUNT`.
pub fn bytes_at(desk: &CatalogDesk, rest: &str, out: &mut Answers) -> Answer {
    let (at, count) = parted(rest);
    let at = size_of(at)?;
    let end = at.checked_add(size_of(count)?).ok_or(Stop::Line)?;
    match desk.record.as_slice().get(at..end) {
        Some(bytes) => out.say_digits(bytes),
        None => return Err(Stop::Line),
    }
    Ok(())
}

/// The entry that the record with other pieces spells, copied.
pub fn read(alloc: Global, desk: &CatalogDesk, pieces: &str, out: &mut Answers) -> Answer {
    let record = edited(alloc, desk, pieces)?;
    match entry_of(alloc, record.as_slice())? {
        None => out.say("misspelled"),
        Some(entry) => say_entry(&entry.copy(alloc)?, out),
    }
    Ok(())
}

/// The entry that the record spells with another number of bytes, zeros after its own.
pub fn cut(alloc: Global, desk: &CatalogDesk, rest: &str, out: &mut Answers) -> Answer {
    let mut record = Vec::from_slice(alloc, desk.record.as_slice())?;
    let length = small_of(rest)?;
    record.resize(length as usize, 0)?;
    match entry_of(alloc, record.as_slice())? {
        None => out.say("misspelled"),
        Some(entry) => say_entry(&entry, out),
    }
    Ok(())
}

/// The record with other pieces, read and written again: whether the bytes are the same.
pub fn rewrite(alloc: Global, desk: &CatalogDesk, pieces: &str, out: &mut Answers) -> Answer {
    let record = edited(alloc, desk, pieces)?;
    match entry_of(alloc, record.as_slice())? {
        None => out.say("misspelled"),
        Some(entry) => {
            let mut written = [255u8; RECORD_LENGTH];
            write_entry(&entry, &mut written);
            let same = written.as_slice() == record.as_slice();
            out.say(if same { "same" } else { "other" });
        }
    }
    Ok(())
}

/// Adds the entry that the record with other pieces spells to the catalog.
pub fn add(alloc: Global, desk: &mut CatalogDesk, pieces: &str, out: &mut Answers) -> Answer {
    let record = edited(alloc, desk, pieces)?;
    match entry_of(alloc, record.as_slice())? {
        None => out.say("misspelled"),
        Some(entry) => {
            desk.catalog.push(entry)?;
            out.say("ok");
        }
    }
    Ok(())
}

/// Adds that many copies of the entry that the record spells to the catalog.
pub fn fill(alloc: Global, desk: &mut CatalogDesk, rest: &str, out: &mut Answers) -> Answer {
    let count = small_of(rest)?;
    match entry_of(alloc, desk.record.as_slice())? {
        None => out.say("misspelled"),
        Some(entry) => {
            fill_with(alloc, &mut desk.catalog, &entry, count)?;
            out.say("ok");
        }
    }
    Ok(())
}

/// Adds that many copies of an entry.
fn fill_with(alloc: Global, catalog: &mut Catalog, entry: &CatEntry, count: u16) -> Answer {
    for _ in 0..count {
        catalog.push(entry.copy(alloc)?)?;
    }
    Ok(())
}

/// The entry of the catalog with a name.
pub fn find(alloc: Global, desk: &CatalogDesk, rest: &str, out: &mut Answers) -> Answer {
    let name = name_of(alloc, rest)?;
    say_found(desk.catalog.find(&name), out);
    Ok(())
}

/// The entry of the catalog with a part number, and whether it has a definition.
pub fn part(desk: &CatalogDesk, rest: &str, out: &mut Answers) -> Answer {
    let part = PartNo(word_of(rest)?);
    say_found(desk.catalog.find_part(part), out);
    if let Some(definition) = desk.catalog.definition_of(part) {
        out.say_number(" maximum ", definition.maximum as u64);
    }
    Ok(())
}

fn say_found(found: Option<&CatEntry>, out: &mut Answers) {
    match found {
        None => out.say("none"),
        Some(entry) => {
            out.say(kind_word(entry.entry_kind));
            out.say_number(" ", u64::from(entry.part.0));
        }
    }
}

/// How many entries a copy of the catalog has.
pub fn copied(alloc: Global, desk: &CatalogDesk, out: &mut Answers) -> Answer {
    let copy: Catalog = desk.catalog.copy(alloc)?;
    out.say_number("", copy.as_slice().len() as u64);
    Ok(())
}

/// Whether a record of a length is valid, and its key: `KIND LENGTH,OFFSET,MAXIMUM RECORD-LENGTH`.
pub fn valid(kind: &str, rest: &str, out: &mut Answers) -> Answer {
    let (numbers, length) = parted(rest);
    let (key_length, numbers) = numbers.split_once(',').ok_or(Stop::Line)?;
    let (key_offset, maximum) = numbers.split_once(',').ok_or(Stop::Line)?;
    let definition = Definition {
        kind: kind_of(kind)?,
        spanned: false,
        key_length: small_of(key_length)?,
        key_offset: small_of(key_offset)?,
        maximum: word_of(maximum)?,
    };
    let record = [0u8; 100];
    let record = record.as_slice().get(..size_of(length)?).ok_or(Stop::Line)?;
    let valid = definition.is_valid_record(record);
    out.say(if valid { "yes" } else { "no" });
    Ok(())
}

/// The kind that a letter stands for.
pub fn kind_of(word: &str) -> Result<Kind, Stop> {
    match word {
        "K" => Ok(Kind::Keyed),
        "E" => Ok(Kind::Entry),
        "R" => Ok(Kind::Relative),
        _ => Err(Stop::Line),
    }
}
