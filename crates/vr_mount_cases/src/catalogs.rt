//! Catalogs, made of records that are written by hand.
ghost use Rattle.std.specs.Prelude.{◌∷◌, nat_eq};
ghost use Rattle.std.specs.List.{IsDistinct};
ghost use Rattle.vr_catalog.specs.Catalog.{parts_in};

use crate::answers::{Answer, Stop, say, say_number};
use crate::desk::Desk;
use crate::words::{parted, put_pieces, word_of};
use std::alloc::Global;
use vr_catalog::{Catalog, RECORD_LENGTH};
use vr_mount::{are_apart, are_on, catalog_of_records, owners_of};
use vr_types::{Bytes, Geometry, PartNo, Space};

/// Forgets the records.
pub fn none(desk: &mut Desk, out: &mut String) -> Answer {
    desk.records.clear();
    say(out, "ok")
}

/// Adds a record: 204 zero bytes with these pieces put into them.
pub fn add(alloc: Global, desk: &mut Desk, pieces: &str, out: &mut String) -> Answer {
    let mut bytes = vec![in alloc; 0; RECORD_LENGTH]?;
    put_pieces(alloc, bytes.as_mut_slice(), pieces)?;
    desk.records.push(Bytes::from_vec(bytes))?;
    say(out, "ok")
}

/// A shape: `SIZE BLOCKS LOG AREA`.
fn shape_of(rest: &str) -> Result<Geometry, Stop> {
    let (size, rest) = parted(rest);
    let (blocks, rest) = parted(rest);
    let (log, area) = parted(rest);
    Ok(Geometry {
        size: word_of(size)?,
        blocks: word_of(blocks)?,
        log: word_of(log)?,
        area: word_of(area)?,
    })
}

/// What the records are the catalog of, on a volume of this shape: `SIZE BLOCKS LOG AREA`.
pub fn catalog(alloc: Global, desk: &Desk, rest: &str, out: &mut String) -> Answer {
    let geometry = shape_of(rest)?;
    if !geometry.is_allowed() {
        return Err(Stop::Line);
    }
    match catalog_of_records(alloc, &geometry, desk.records.as_slice())? {
        None => say(out, "none"),
        Some(catalog) => say_catalog(alloc, &geometry, &catalog, out),
    }
}

fn say_catalog(alloc: Global, geometry: &Geometry, catalog: &Catalog, out: &mut String) -> Answer
    requires { IsDistinct nat_eq (0 ∷ parts_in catalog.now) }
{
    say_number(out, catalog.as_slice().len() as u64)?;
    if !are_apart(catalog) {
        return say(out, " in one area");
    }
    if !are_on(geometry, catalog) {
        return say(out, " past the end");
    }
    let mut owners = owners_of(alloc, geometry, catalog)?;
    say_free(&mut owners, out)
}

/// The areas that are free, in order.
fn say_free(owners: &mut Space, out: &mut String) -> Answer {
    for _ in 0..owners.free() {
        if let Some(area) = owners.claim(PartNo(u32::MAX)) {
            say(out, " ")?;
            say_number(out, area.0 as u64)?;
        }
    }
    Ok(())
}
