//! The answer to a request, plainly: one rule after another, in the order in which refusals are
//! tried. It shares no code with the crate.

use crate::search::{found, sees_kept};
use crate::small::{Ask, DataSet, Keeps, Key, Name, Small, Sought, Stands, next_place};

/// What is answered: done, with the place and whether with its record, or refused, by the number
/// that the listing shows, with the number that a refusal by the log or by areas shows.
#[derive(Clone, Copy, PartialEq, Eq)]
pub enum PlainReply {
    Done { place: Option<Key>, record: bool },
    Refused { code: u32 },
    Full { need: u32 },
    Lacking { need: u32 },
}

fn is_there(case: &Small, key: Key) -> bool {
    match key {
        Key::A => case.has_a,
        Key::B => case.has_b,
        Key::Far => false,
    }
}

/// Another unit's lock is in the way.
fn is_in_the_way(case: &Small, key: Key, exclusively: bool) -> bool {
    match case.lock {
        None => false,
        Some(lock) => lock.key == key && !lock.own && (exclusively || lock.exclusive),
    }
}

/// The bytes of a before record of a place that has no record: 20 and the place.
fn bare_need(case: &Small) -> u32 {
    if case.data_set == DataSet::Keyed {
        21
    } else {
        24
    }
}

/// The bytes of a record that stands.
fn standing_length(case: &Small) -> u32 {
    if case.data_set == DataSet::Relative {
        3
    } else {
        2
    }
}

/// The log for a change of a place, over a record or none.
fn need(case: &Small, replaces: bool) -> u32 {
    let record = if replaces { standing_length(case) } else { 0 };
    let before = bare_need(case).saturating_add(record);
    let place = if case.logged { 0 } else { before };
    if case.live {
        place
    } else {
        place.saturating_add(9)
    }
}

fn refused(code: u32) -> PlainReply {
    PlainReply::Refused { code }
}

/// How many areas a data set has once a place is in it: slot 500 is in the third, and all other
/// addresses and slots are in the first. Of a key-sequenced one it isn't told.
fn areas_with(case: &Small, key: Key) -> u32 {
    match case.data_set {
        DataSet::Keyed => 0,
        DataSet::Entry => 1,
        DataSet::Relative => if key == Key::Far { 3 } else { 1 },
    }
}

/// The end of a change that the log may refuse.
fn logged(case: &Small, key: Key, replaces: bool) -> PlainReply {
    let need = need(case, replaces);
    if case.used.saturating_add(need) > 496 {
        return PlainReply::Full { need };
    }
    PlainReply::Done {
        place: Some(key),
        record: false,
    }
}

/// The end of a change that puts a record.
fn put(case: &Small, key: Key, replaces: bool) -> PlainReply {
    let need = areas_with(case, key).saturating_sub(case.areas);
    if need > case.free {
        return PlainReply::Lacking { need };
    }
    logged(case, key, replaces)
}

/// A read that finds no record is refused at the end of the data, where it is sequential.
fn absent(case: &Small, sought: Sought) -> PlainReply {
    if sought == Sought::Next {
        refused(4)
    } else if case.data_set == DataSet::Entry {
        refused(32)
    } else {
        refused(16)
    }
}

/// A GET once nothing in memory refuses it.
fn get(case: &Small, sought: Sought, update: bool, keeps: Keeps) -> PlainReply {
    match found(case, sought, sees_kept(update, keeps)) {
        None => absent(case, sought),
        Some(key) => {
            let asks = update || keeps != Keeps::Nothing;
            if asks && is_in_the_way(case, key, update) {
                return refused(901);
            }
            if !is_there(case, key) {
                return absent(case, sought);
            }
            PlainReply::Done {
                place: Some(key),
                record: true,
            }
        }
    }
}

/// A POINT, which names a record.
fn point(case: &Small, sought: Sought) -> PlainReply {
    if sought == Sought::Next {
        return refused(907);
    }
    match found(case, sought, false) {
        Some(key) if is_there(case, key) => PlainReply::Done {
            place: Some(key),
            record: false,
        },
        _ => absent(case, sought),
    }
}

/// The refusal of a place of that many bytes, 0 where there is none: address 0 is the place A.
fn form_refused(case: &Small, length: u32) -> u32 {
    match case.data_set {
        DataSet::Keyed => if length == 0 { 907 } else { 108 },
        DataSet::Entry => if length == 4 { 0 } else { 907 },
        DataSet::Relative => if length == 4 { 192 } else { 907 },
    }
}

fn get_of(case: &Small, length: u32) -> PlainReply {
    match form_refused(case, length) {
        0 => get(case, Sought::Equal(Key::A), false, Keeps::Nothing),
        code => refused(code),
    }
}

fn point_of(case: &Small, length: u32) -> PlainReply {
    match form_refused(case, length) {
        0 => point(case, Sought::Equal(Key::A)),
        code => refused(code),
    }
}

fn is_valid(case: &Small, length: u32) -> bool {
    length <= 3
        && length
            >= if case.data_set == DataSet::Relative {
                3
            } else {
                1
            }
}

/// An add whose form is right: in an entry-sequenced data set it goes to the end.
fn add(case: &Small, key: Key, length: u32) -> PlainReply {
    if !is_valid(case, length) {
        return refused(108);
    }
    let key = if case.data_set == DataSet::Entry {
        next_place(case)
    } else {
        key
    };
    if is_in_the_way(case, key, true) {
        return refused(901);
    }
    if is_there(case, key) {
        return refused(8);
    }
    put(case, key, false)
}

/// An add that names a place, which only one of a relative data set does.
fn add_at(case: &Small, length: u32) -> PlainReply {
    if case.data_set == DataSet::Relative && length == 4 {
        refused(192)
    } else {
        refused(907)
    }
}

fn add_bare(case: &Small) -> PlainReply {
    if case.data_set == DataSet::Relative {
        refused(907)
    } else {
        add(case, Key::A, 3)
    }
}

/// What an update may not change: the key of a key-sequenced record, and the length of an
/// entry-sequenced one.
fn update_refused(case: &Small, held: Key, key: Key, length: u32) -> u32 {
    match case.data_set {
        DataSet::Keyed => if held == key { 0 } else { 96 },
        DataSet::Entry => if length == standing_length(case) {
            0
        } else {
            100
        },
        DataSet::Relative => 0,
    }
}

fn update(case: &Small, key: Key, length: u32) -> PlainReply {
    if !is_valid(case, length) {
        return refused(108);
    }
    match case.held {
        None => refused(92),
        Some(held) => {
            if !is_there(case, held) {
                return refused(16);
            }
            match update_refused(case, held, key, length) {
                0 => {}
                code => return refused(code),
            }
            if is_in_the_way(case, held, true) {
                return refused(901);
            }
            put(case, held, true)
        }
    }
}

fn erase(case: &Small) -> PlainReply {
    if case.data_set == DataSet::Entry {
        return refused(907);
    }
    match case.held {
        None => refused(92),
        Some(held) => {
            if !is_there(case, held) {
                return refused(16);
            }
            if is_in_the_way(case, held, true) {
                return refused(901);
            }
            logged(case, held, true)
        }
    }
}

fn nothing_shown() -> PlainReply {
    PlainReply::Done {
        place: None,
        record: false,
    }
}

/// The answer, once the file can be opened and the volume hasn't stopped.
fn going(case: &Small) -> PlainReply {
    match case.ask {
        Ask::Get { sought, .. } if sought == Sought::Next && case.stands == Stands::Nowhere => {
            refused(88)
        }
        Ask::Get {
            sought,
            update,
            keeps,
        } => get(case, sought, update, keeps),
        Ask::Point { sought } => point(case, sought),
        Ask::GetOf { length } => get_of(case, length),
        Ask::PointOf { length } => point_of(case, length),
        Ask::Add { key, length } => add(case, key, length),
        Ask::AddAt { length } => add_at(case, length),
        Ask::AddBare => add_bare(case),
        Ask::Update { key, length } => update(case, key, length),
        Ask::Erase => erase(case),
        Ask::EndReq | Ask::Commit | Ask::Backout => nothing_shown(),
    }
}

/// The answer.
pub fn plain(case: &Small) -> PlainReply {
    let on_a_file = case.ask != Ask::Commit && case.ask != Ask::Backout;
    if on_a_file && (case.name != Name::Known || case.changing) {
        return refused(908);
    }
    if case.stopped {
        return refused(903);
    }
    going(case)
}
