//! DEFINE, ALTER and DELETE on the catalog, which stays as it is.

use crate::desk::CatalogDesk;
use crate::records::kind_of;
use crate::shown::say_entry;
use crate::words::{name_of, name_or_none};
use std::alloc::Global;
use vr_case_table::{Answer, Answers, Stop, byte_of, parted, small_of, word_of};
use vr_catalog::{
    Alter, CatFault, Change, Changes, DataOptions, Define, FreeSpace, NameList, NewEntry,
    ShareOptions, SpaceUnit, alter, define, delete,
};

/// DEFINE: `cluster NAME KIND KEYS SIZES [spanned]`, `alternate NAME BASE KEYS SIZES [unique]` or
/// `path NAME BASE`.
pub fn define_one(alloc: Global, desk: &CatalogDesk, rest: &str, out: &mut Answers) -> Answer {
    let (what, rest) = parted(rest);
    let (name, rest) = parted(rest);
    let name = name_of(alloc, name)?;
    let what = new_entry(alloc, what, rest)?;
    let order = Define { name, what };
    say_result(define(alloc, &desk.catalog, &order, &desk.geometry), out)
}

/// What is defined.
fn new_entry(alloc: Global, what: &str, rest: &str) -> Result<NewEntry, Stop> {
    let (first, rest) = parted(rest);
    match what {
        "cluster" => {
            let (options, flag) = options(alloc, rest)?;
            Ok(NewEntry::Cluster {
                kind: kind_of(first)?,
                spanned: flag == "spanned",
                options,
            })
        }
        "alternate" => {
            let (options, flag) = options(alloc, rest)?;
            Ok(NewEntry::Alternate {
                related: name_of(alloc, first)?,
                unique: flag == "unique",
                options,
            })
        }
        "path" => Ok(NewEntry::Path {
            related: name_of(alloc, first)?,
        }),
        _ => Err(Stop::Line),
    }
}

/// KEYS and RECORDSIZE as `LENGTH,OFFSET AVERAGE,MAXIMUM`, and the word after them. A word
/// `DATA,INDEX,S,D,M` before that names the components and classes.
fn options<'a>(alloc: Global, rest: &'a str) -> Result<(DataOptions, &'a str), Stop> {
    let (keys, rest) = parted(rest);
    let (sizes, flag) = parted(rest);
    let (key_length, key_offset) = keys.split_once(',').ok_or(Stop::Line)?;
    let (average, maximum) = sizes.split_once(',').ok_or(Stop::Line)?;
    let (names, flag) = match flag.split_once(' ') {
        None => ("-,-,-", flag),
        Some((flag, names)) => (names, flag),
    };
    let (data_name, names) = names.split_once(',').ok_or(Stop::Line)?;
    let (index_name, class) = names.split_once(',').ok_or(Stop::Line)?;
    let options = DataOptions {
        key_length: small_of(key_length)?,
        key_offset: small_of(key_offset)?,
        average: word_of(average)?,
        maximum: word_of(maximum)?,
        free_space: FreeSpace {
            interval: 20,
            area: 10,
        },
        share_options: ShareOptions {
            regions: 1,
            systems: 3,
        },
        space: SpaceUnit::Cylinders,
        primary: 1,
        secondary: 2,
        interval_size: 4096,
        data_name: name_or_none(alloc, data_name)?,
        index_name: name_or_none(alloc, index_name)?,
        storage_class: None,
        data_class: name_or_none(alloc, class)?,
        management_class: None,
    };
    Ok((options, flag))
}

/// ALTER: `NAME [name NEW] [free A,B] [share A,B]`.
pub fn alter_one(alloc: Global, desk: &CatalogDesk, rest: &str, out: &mut Answers) -> Answer {
    let (name, rest) = parted(rest);
    let mut order = Alter {
        name: name_of(alloc, name)?,
        new_name: None,
        free_space: None,
        share_options: None,
    };
    put_values(alloc, &mut order, rest)?;
    say_result(alter(alloc, &desk.catalog, &order), out)
}

/// The values of an ALTER.
fn put_values(alloc: Global, order: &mut Alter, rest: &str) -> Answer {
    let mut words = rest.split_whitespace();
    for _ in 0..3 {
        let Some(word) = words.next() else {
            return Ok(());
        };
        let value = words.next().ok_or(Stop::Line)?;
        put_value(alloc, order, word, value)?;
    }
    Ok(())
}

/// One value of an ALTER.
fn put_value(alloc: Global, order: &mut Alter, word: &str, value: &str) -> Answer {
    if word == "name" {
        order.new_name = Some(name_of(alloc, value)?);
        return Ok(());
    }
    let (first, second) = value.split_once(',').ok_or(Stop::Line)?;
    let first = byte_of(first)?;
    let second = byte_of(second)?;
    match word {
        "free" => {
            order.free_space = Some(FreeSpace {
                interval: first,
                area: second,
            });
            Ok(())
        }
        "share" => {
            order.share_options = Some(ShareOptions {
                regions: first,
                systems: second,
            });
            Ok(())
        }
        _ => Err(Stop::Line),
    }
}

/// DELETE: `NAME..`.
pub fn delete_some(alloc: Global, desk: &CatalogDesk, rest: &str, out: &mut Answers) -> Answer {
    let mut names = NameList::new(alloc);
    add_names(alloc, &mut names, rest)?;
    say_result(delete(alloc, &desk.catalog, &names), out)
}

fn add_names(alloc: Global, names: &mut NameList, rest: &str) -> Answer {
    for word in rest.split_whitespace() {
        names.push(name_of(alloc, word)?)?;
    }
    Ok(())
}

/// Writes the changes, or the fault and its code.
fn say_result(answered: Result<Changes, CatFault>, out: &mut Answers) -> Answer {
    match answered {
        Ok(changes) => say_changes(changes.as_slice(), out),
        Err(CatFault::Memory) => return Err(Stop::Memory),
        Err(fault) => {
            out.say_number("code ", fault.code() as u64);
            out.say_number(" fault ", fault.number() as u64);
        }
    }
    Ok(())
}

fn say_changes(changes: &[Change], out: &mut Answers) {
    if changes.is_empty() {
        return out.say("nothing");
    }
    let mut before = "";
    for change in changes {
        out.say(before);
        before = "; ";
        say_change(change, out);
    }
}

fn say_change(change: &Change, out: &mut Answers) {
    match change {
        Change::Add(entry) => {
            out.say("add ");
            say_entry(entry, out);
        }
        Change::Update(entry) => {
            out.say("update ");
            say_entry(entry, out);
        }
        Change::Erase(name) => {
            out.say("erase ");
            out.say_bytes(name.as_slice());
        }
    }
}
