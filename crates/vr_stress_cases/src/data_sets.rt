//! The data sets of the three volumes, one of each kind: how a deck names a record of one by its
//! number, and what the place of that record is.

use std::alloc::Global;
use std::fmt::Write;
use vr_case_volumes::{Answer, MAXIMUM, Stop, volume_of};
use vr_device::MemoryDevice;
use vr_types::{Geometry, Kind, Place, number_place, place};

/// How many volumes there are.
pub const VOLUMES: u32 = 3;

/// How many records of the most bytes an interval of 512 bytes holds of an entry-sequenced data set.
const IN_INTERVAL: u32 = 4;

const INTERVAL: u32 = 512;

/// How far the slots of two records are apart, so that they lie in several areas.
const SLOTS_APART: u32 = 5;

/// The kind of a volume's data set.
pub fn kind_of(volume: u32) -> Kind {
    match volume {
        0 => Kind::Keyed,
        1 => Kind::Entry,
        _ => Kind::Relative,
    }
}

/// The name of a volume's data set.
pub fn name_of(volume: u32) -> &'static str {
    match kind_of(volume) {
        Kind::Keyed => "VRM.KEYED",
        Kind::Entry => "VRM.ENTRIES",
        Kind::Relative => "VRM.SLOTS",
    }
}

/// A new volume of this number and shape with its data set.
fn new_volume(alloc: Global, shape: Geometry, volume: u32) -> Result<MemoryDevice, Stop> {
    let kind = kind_of(volume);
    volume_of(alloc, shape, volume, name_of(volume), kind, MAXIMUM)
}

/// New volumes of a shape with their data sets.
pub fn new_shelf(alloc: Global, shape: Geometry) -> Result<Vec<MemoryDevice>, Stop> {
    let keyed = new_volume(alloc, shape, 0)?;
    let entries = new_volume(alloc, shape, 1)?;
    let slots = new_volume(alloc, shape, 2)?;
    Ok(vec![in alloc; keyed, entries, slots]?)
}

/// The address of the record of a number, from 0, where all records have the most bytes.
fn address_of(number: u32) -> u32 {
    (number / IN_INTERVAL)
        .saturating_mul(INTERVAL)
        .saturating_add((number % IN_INTERVAL).saturating_mul(MAXIMUM))
}

/// The slot of the record of a number, from 0.
fn slot_of(number: u32) -> u32 {
    number.saturating_mul(SLOTS_APART).saturating_add(1)
}

/// Adds the operand that names the record of a number.
pub fn add_place(text: &mut String, volume: u32, number: u32) -> Answer {
    match kind_of(volume) {
        Kind::Keyed => write!(text, " KEY=C'{number:08}'")?,
        Kind::Entry => {
            let address = address_of(number);
            write!(text, " RBA={address}")?
        }
        Kind::Relative => {
            let slot = slot_of(number);
            write!(text, " RRN={slot}")?
        }
    }
    Ok(())
}

/// The place of the record of a number, as a reply names it.
pub fn place_of(alloc: Global, volume: u32, number: u32) -> Result<Place, Stop> {
    match kind_of(volume) {
        Kind::Keyed => {
            let key = format!(in alloc; "{number:08}")?;
            Ok(place(alloc, key.as_bytes())?)
        }
        Kind::Entry => Ok(number_place(alloc, address_of(number))?),
        Kind::Relative => Ok(number_place(alloc, slot_of(number))?),
    }
}
