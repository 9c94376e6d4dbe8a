//! A small state as the crate sees it, and its answer.
ghost use Rattle.std.specs.Prelude.{◌<◌, ◌^◌, length};
ghost use Rattle.std.specs.Option.{ForSome, option_copied};

use crate::answers::Stop;
use crate::search::{found, sees_kept};
use crate::small::{Ask, DataSet, Keeps, Key, Name, OneLock, Small, Sought, Stands, next_place};
use std::alloc::Global;
use vr_answer::{Case, Looked, answer, place_looked_at};
use vr_catalog::{CatEntry, Catalog, EntryKind, FreeSpace, ShareOptions, SpaceUnit};
use vr_locks::{LockNo, LockTable, lock_table};
use vr_types::{
    Bytes, FileRef, Find, Geometry, Integrity, Kind, LockName, LockNames, Mode, NameFault, PartNo,
    Place, Reply, Request, Stand, Unit, bytes, dataset_name, place,
};

/// A catalog with three clusters of RECORDSIZE(3 3): part 1, INDEXED KEYS(1 0), part 2, NONINDEXED,
/// and part 3, NUMBERED.
pub fn small_catalog(alloc: Global) -> Result<Catalog, Stop> {
    let mut catalog = Catalog::new(alloc);
    catalog.push(small_entry(alloc, "A.SMALL", DataSet::Keyed)?)?;
    catalog.push(small_entry(alloc, "B.SMALL", DataSet::Entry)?)?;
    catalog.push(small_entry(alloc, "C.SMALL", DataSet::Relative)?)?;
    Ok(catalog)
}

/// The part of the cluster of a kind.
pub fn part_of(data_set: DataSet) -> PartNo {
    match data_set {
        DataSet::Keyed => PartNo(1),
        DataSet::Entry => PartNo(2),
        DataSet::Relative => PartNo(3),
    }
}

fn kind_of(data_set: DataSet) -> Kind {
    match data_set {
        DataSet::Keyed => Kind::Keyed,
        DataSet::Entry => Kind::Entry,
        DataSet::Relative => Kind::Relative,
    }
}

fn small_entry(alloc: Global, name: &str, data_set: DataSet) -> Result<CatEntry, Stop> {
    let name = match dataset_name(alloc, name) {
        Ok(name) => name,
        Err(NameFault::Memory) => return Err(Stop::Memory),
        Err(_) => return Err(Stop::Line),
    };
    Ok(CatEntry {
        name,
        entry_kind: EntryKind::Cluster,
        kind: Some(kind_of(data_set)),
        spanned: false,
        unique: false,
        built: false,
        part: part_of(data_set),
        related: None,
        key_length: if data_set == DataSet::Keyed { 1 } else { 0 },
        key_offset: 0,
        average: 3,
        maximum: 3,
        first_area: None,
        free_space: FreeSpace {
            interval: 0,
            area: 0,
        },
        share_options: ShareOptions {
            regions: 1,
            systems: 3,
        },
        space: SpaceUnit::Unstated,
        primary: 0,
        secondary: 0,
        interval_size: 0,
        data_name: None,
        index_name: None,
        storage_class: None,
        data_class: None,
        management_class: None,
    })
}

/// A place: a key of one byte, or four bytes of an address or a slot.
pub fn letter(data_set: DataSet, key: Key) -> &'static [u8] {
    match data_set {
        DataSet::Keyed => key_letter(key),
        DataSet::Entry => address_of(key),
        DataSet::Relative => slot_of(key),
    }
}

fn key_letter(key: Key) -> &'static [u8] {
    match key {
        Key::A => b"A",
        Key::B => b"B",
        Key::Far => b"F",
    }
}

fn address_of(key: Key) -> &'static [u8] {
    match key {
        Key::A => b"\x00\x00\x00\x00",
        Key::B => b"\x00\x00\x00\x02",
        Key::Far => b"\x00\x00\x00\x04",
    }
}

fn slot_of(key: Key) -> &'static [u8] {
    match key {
        Key::A => b"\x00\x00\x00\x01",
        Key::B => b"\x00\x00\x00\x02",
        Key::Far => b"\x00\x00\x01\xf4",
    }
}

/// The unit that asks, and another.
pub fn unit_of(own: bool) -> Unit {
    Unit {
        deck: 1,
        number: if own { 1 } else { 2 },
    }
}

fn file_of(name: Name, data_set: DataSet) -> FileRef {
    FileRef {
        volume: 0,
        slot: 0,
        base: part_of(data_set),
        path: if name == Name::ByPath {
            Some(PartNo(9))
        } else {
            None
        },
        kind: kind_of(data_set),
        known: name != Name::Unknown,
    }
}

fn integrity_of(keeps: Keeps) -> Integrity {
    match keeps {
        Keeps::Nothing => Integrity::Nri,
        Keeps::Consistent => Integrity::Cr,
        Keeps::Repeatable => Integrity::Cre,
    }
}

/// A record of a length with a key.
fn record_of(alloc: Global, key: Key, length: u32) -> Result<Bytes, Stop> {
    let whole: &[u8] = match key {
        Key::A => b"A0000",
        Key::B => b"B0000",
        Key::Far => b"F0000",
    };
    let end = (length as usize).min(whole.len());
    Ok(bytes(alloc, &whole[..end])?)
}

/// A place of that many bytes.
fn place_of(alloc: Global, data_set: DataSet, length: u32) -> Result<Place, Stop> {
    let whole: &[u8] = if data_set == DataSet::Keyed {
        b"AAAAA"
    } else {
        b"\x00\x00\x00\x00\x00"
    };
    let end = (length as usize).min(whole.len());
    Ok(place(alloc, &whole[..end])?)
}

fn get_of(file: FileRef, find: Find, update: bool, keeps: Keeps) -> Request {
    Request::Get {
        file,
        find,
        update,
        integrity: integrity_of(keeps),
    }
}

fn find_of(alloc: Global, data_set: DataSet, sought: Sought) -> Result<Find, Stop> {
    match sought {
        Sought::Next => Ok(Find::Next),
        Sought::Equal(key) => Ok(Find::Equal(place(alloc, letter(data_set, key))?)),
        Sought::AtLeast(key) => Ok(Find::AtLeast(place(alloc, letter(data_set, key))?)),
    }
}

fn request_of(alloc: Global, case: &Small) -> Result<Request, Stop> {
    let file = file_of(case.name, case.data_set);
    match case.ask {
        Ask::Get {
            sought,
            update,
            keeps,
        } => {
            let find = find_of(alloc, case.data_set, sought)?;
            Ok(get_of(file, find, update, keeps))
        }
        Ask::Point { sought } => Ok(Request::Point {
            file,
            find: find_of(alloc, case.data_set, sought)?,
        }),
        Ask::GetOf { length } => {
            let find = Find::Equal(place_of(alloc, case.data_set, length)?);
            Ok(get_of(file, find, false, Keeps::Nothing))
        }
        Ask::PointOf { length } => Ok(Request::Point {
            file,
            find: Find::Equal(place_of(alloc, case.data_set, length)?),
        }),
        Ask::Update { key, length } => Ok(Request::Update {
            file,
            bytes: record_of(alloc, key, length)?,
        }),
        Ask::Erase => Ok(Request::Erase { file }),
        Ask::EndReq => Ok(Request::EndReq { file }),
        Ask::Commit => Ok(Request::Commit),
        Ask::Backout => Ok(Request::Backout),
        Ask::Add { .. } | Ask::AddAt { .. } | Ask::AddBare => add_of(alloc, case, file),
    }
}

/// An add, which names its slot in a relative data set.
fn add_of(alloc: Global, case: &Small, file: FileRef) -> Result<Request, Stop> {
    match case.ask {
        Ask::Add { key, length } => Ok(Request::Add {
            file,
            place: slot_named(alloc, case.data_set, key)?,
            bytes: record_of(alloc, key, length)?,
        }),
        Ask::AddAt { length } => Ok(Request::Add {
            file,
            place: Some(place_of(alloc, case.data_set, length)?),
            bytes: record_of(alloc, Key::A, 3)?,
        }),
        _ => Ok(Request::Add {
            file,
            place: None,
            bytes: record_of(alloc, Key::A, 3)?,
        }),
    }
}

fn slot_named(alloc: Global, data_set: DataSet, key: Key) -> Result<Option<Place>, Stop> {
    match data_set {
        DataSet::Keyed | DataSet::Entry => Ok(None),
        DataSet::Relative => Ok(Some(place(alloc, slot_of(key))?)),
    }
}

/// A lock table with the one lock.
fn table_of(alloc: Global, case: &Small) -> Result<LockTable, Stop> {
    let mut table = lock_table(alloc);
    match case.lock {
        None => Ok(table),
        Some(lock) => {
            take(alloc, &mut table, case.data_set, lock)?;
            Ok(table)
        }
    }
}

fn take(
    alloc: Global,
    table: &mut LockTable,
    data_set: DataSet,
    lock: OneLock,
) -> Result<(), Stop> {
    let mut names = LockNames::new(alloc);
    names.push(LockName::Record {
        part: part_of(data_set),
        place: place(alloc, letter(data_set, lock.key))?,
    })?;
    let mode = if lock.exclusive {
        Mode::Exclusive
    } else {
        Mode::Shared
    };
    match table.ask(unit_of(lock.own), &names, mode) {
        Ok(()) => Ok(()),
        Err(LockNo::Memory) => Err(Stop::Memory),
        Err(LockNo::Held { .. }) => Err(Stop::Line),
    }
}

/// The record that stands at a place.
fn record_at(case: &Small, at: &[u8]) -> Option<&'static [u8]>
    ensures { ForSome (option_copied result) (λ bytes. length bytes < 2 ^ 32) }
{
    if at == letter(case.data_set, Key::A) && case.has_a {
        return Some(standing(case.data_set, Key::A));
    }
    if at == letter(case.data_set, Key::B) && case.has_b {
        return Some(standing(case.data_set, Key::B));
    }
    None
}

/// The record that stands at a place, if one does.
pub fn standing(data_set: DataSet, key: Key) -> &'static [u8]
    ensures { length result.now < 2 ^ 32 }
{
    match (data_set == DataSet::Relative, key) {
        (false, Key::A) => b"A1",
        (false, Key::B | Key::Far) => b"B1",
        (true, Key::A) => b"A12",
        (true, Key::B | Key::Far) => b"B12",
    }
}

/// The place that the request's file holds for update.
fn held_of(alloc: Global, case: &Small) -> Result<Option<Place>, Stop> {
    match case.held {
        None => Ok(None),
        Some(key) => Ok(Some(place(alloc, letter(case.data_set, key))?)),
    }
}

/// Where it stands.
fn stand_of(alloc: Global, case: &Small) -> Result<Option<Stand>, Stop> {
    match case.stands {
        Stands::Unused => Ok(None),
        Stands::Start => Ok(Some(Stand::Start)),
        Stands::At(key) => Ok(Some(Stand::At(place(alloc, letter(case.data_set, key))?))),
        Stands::After(key) => Ok(Some(Stand::After(place(alloc, letter(case.data_set, key))?))),
        Stands::End => Ok(Some(Stand::End)),
        Stands::Nowhere => Ok(Some(Stand::None)),
    }
}

/// What the crate answers.
pub fn answer_of(alloc: Global, catalog: &Catalog, case: &Small) -> Result<Reply, Stop> {
    let request = request_of(alloc, case)?;
    let locks = table_of(alloc, case)?;
    let held = held_of(alloc, case)?;
    let stand = stand_of(alloc, case)?;
    let in_hand = Case {
        geometry: Geometry {
            size: 512,
            blocks: 8,
            log: 1,
            area: 2,
        },
        catalog,
        locks: &locks,
        held: held.as_ref(),
        stand: stand.as_ref(),
        stopped: if case.stopped { Some(7) } else { None },
        free: case.free,
        used: u64::from(case.used),
        address: address_given(case),
        areas: case.areas,
        unit: unit_of(true),
        request: &request,
        catalog_changing: case.changing,
    };
    let looked = looked_at(case, &in_hand);
    Ok(answer(alloc, &in_hand, looked, case.logged, case.live)?)
}

/// The address that an added record gets, in an entry-sequenced data set.
fn address_given(case: &Small) -> Option<&'static [u8]> {
    match case.data_set {
        DataSet::Keyed | DataSet::Relative => None,
        DataSet::Entry => Some(address_of(next_place(case))),
    }
}

/// What the request comes to: its place, as the volume finds it, and the record that stands there.
fn looked_at<'a>(case: &Small, in_hand: &Case<'a>) -> Looked<'a>
    ensures { ForSome (option_copied result.present) (λ bytes. length bytes < 2 ^ 32) }
{
    let place = place_met(case, in_hand);
    let present = match place {
        None => None,
        Some(at) => record_at(case, at),
    };
    Looked { place, present }
}

/// The place that a read comes to is found; any other request names it.
fn place_met<'a>(case: &Small, in_hand: &Case<'a>) -> Option<&'a [u8]> {
    match case.ask {
        Ask::Get {
            sought,
            update,
            keeps,
        } => letter_of(case.data_set, found(case, sought, sees_kept(update, keeps))),
        Ask::Point { sought } => letter_of(case.data_set, found(case, sought, false)),
        Ask::PointOf { .. } => letter_of(case.data_set, Some(Key::A)),
        Ask::GetOf { .. } | Ask::Add { .. } | Ask::Update { .. } => place_looked_at(in_hand),
        Ask::AddAt { .. } | Ask::AddBare => place_looked_at(in_hand),
        Ask::Erase | Ask::EndReq | Ask::Commit | Ask::Backout => place_looked_at(in_hand),
    }
}

fn letter_of(data_set: DataSet, key: Option<Key>) -> Option<&'static [u8]> {
    match key {
        None => None,
        Some(key) => Some(letter(data_set, key)),
    }
}
