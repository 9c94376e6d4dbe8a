//! Questions about the pairs of alternate indexes.

use std::alloc::Global;
use vr_altkey::{AltDef, AltList, PairChange, changes, pair};
use vr_case_table::{Answer, Answers, Stop, digits_of, parted, small_of, word_of};
use vr_types::{PartNo, Place};

/// The pair of a record: `LENGTH,OFFSET PLACE RECORD`.
pub fn pair_of(alloc: Global, rest: &str, out: &mut Answers) -> Answer {
    let (keys, rest) = parted(rest);
    let (place, record) = parted(rest);
    let def = alternate_of(1, keys)?;
    let place = Place::from_vec(digits_of(alloc, place)?);
    let record = digits_of(alloc, record)?;
    match pair(alloc, &def, &place, record.as_slice())? {
        None => out.say("none"),
        Some(pair) => out.say_digits(pair.as_slice()),
    }
    Ok(())
}

/// The alternate index of a part: `LENGTH,OFFSET`.
fn alternate_of(part: u32, keys: &str) -> Result<AltDef, Stop> {
    let (length, offset) = keys.split_once(',').ok_or(Stop::Line)?;
    Ok(AltDef {
        part: PartNo(part),
        length: small_of(length)?,
        offset: small_of(offset)?,
        unique: false,
    })
}

/// The pairs that go and come: `PLACE OLD NEW PART,LENGTH,OFFSET..`, where `-` stands for no
/// record.
pub fn changes_of(alloc: Global, rest: &str, out: &mut Answers) -> Answer {
    let (place, rest) = parted(rest);
    let (old, rest) = parted(rest);
    let (new, rest) = parted(rest);
    let place = Place::from_vec(digits_of(alloc, place)?);
    let old = record_of(alloc, old)?;
    let new = record_of(alloc, new)?;
    let mut alternates = AltList::new(alloc);
    add_alternates(&mut alternates, rest)?;
    let found = changes(alloc, &alternates, &place, as_bytes(&old), as_bytes(&new))?;
    say_changes(found.as_slice(), out);
    Ok(())
}

fn add_alternates(alternates: &mut AltList, rest: &str) -> Answer {
    for word in rest.split_whitespace() {
        let (part, keys) = word.split_once(',').ok_or(Stop::Line)?;
        alternates.push(alternate_of(word_of(part)?, keys)?)?;
    }
    Ok(())
}

/// A record, or none for `-`.
fn record_of(alloc: Global, word: &str) -> Result<Option<Vec<u8>>, Stop> {
    if word == "-" {
        return Ok(None);
    }
    Ok(Some(digits_of(alloc, word)?))
}

fn as_bytes(record: &Option<Vec<u8>>) -> Option<&[u8]> {
    match record {
        None => None,
        Some(record) => Some(record.as_slice()),
    }
}

fn say_changes(found: &[PairChange], out: &mut Answers) {
    if found.is_empty() {
        return out.say("none");
    }
    for change in found {
        out.gap();
        out.say_number(
            if change.added { "+" } else { "-" },
            u64::from(change.part.0),
        );
        out.say(":");
        out.say_digits(change.place.as_slice());
    }
}
