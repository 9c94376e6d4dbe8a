//! An entry as a line shows it.

use vr_case_table::Answers;
use vr_catalog::{CatEntry, EntryKind, SpaceUnit};
use vr_types::{Kind, Name};

/// Writes every field of an entry.
pub fn say_entry(entry: &CatEntry, out: &mut Answers) {
    out.say(kind_word(entry.entry_kind));
    out.say(organisation(entry.kind));
    say_flags(entry, out);
    out.say_number(" part ", entry.part.0 as u64);
    if let Some(related) = entry.related {
        out.say_number(" over ", related.0 as u64);
    }
    say_pair(
        " keys ",
        entry.key_length as u64,
        entry.key_offset as u64,
        out,
    );
    say_pair(" sizes ", entry.average as u64, entry.maximum as u64, out);
    if let Some(area) = entry.first_area {
        out.say_number(" area ", area.0 as u64);
    }
    say_shares(entry, out);
    say_names(entry, out)
}

/// Cluster, alternate index or path.
pub fn kind_word(kind: EntryKind) -> &'static str {
    match kind {
        EntryKind::Cluster => "cluster",
        EntryKind::Alternate => "alternate",
        EntryKind::Path => "path",
    }
}

/// The organisation of its records.
fn organisation(kind: Option<Kind>) -> &'static str {
    match kind {
        None => "",
        Some(Kind::Keyed) => " K",
        Some(Kind::Entry) => " E",
        Some(Kind::Relative) => " R",
    }
}

fn say_flags(entry: &CatEntry, out: &mut Answers) {
    if entry.spanned {
        out.say(" spanned");
    }
    if entry.unique {
        out.say(" unique");
    }
    if entry.built {
        out.say(" built");
    }
}

fn say_pair(word: &str, first: u64, second: u64, out: &mut Answers) {
    out.say_number(word, first);
    out.say_number(",", second)
}

fn say_shares(entry: &CatEntry, out: &mut Answers) {
    let free = entry.free_space;
    say_pair(" free ", free.interval as u64, free.area as u64, out);
    let share = entry.share_options;
    say_pair(" share ", share.regions as u64, share.systems as u64, out);
    let unit = match entry.space {
        SpaceUnit::Unstated => "none",
        SpaceUnit::Cylinders => "cylinders",
        SpaceUnit::Tracks => "tracks",
        SpaceUnit::Records => "records",
    };
    out.say(" space ");
    out.say(unit);
    say_pair(",", entry.primary as u64, entry.secondary as u64, out);
    out.say_number(" ci ", entry.interval_size as u64)
}

fn say_names(entry: &CatEntry, out: &mut Answers) {
    out.say(" names ");
    out.say_bytes(entry.name.as_slice());
    say_name(&entry.data_name, out);
    say_name(&entry.index_name, out);
    say_name(&entry.storage_class, out);
    say_name(&entry.data_class, out);
    say_name(&entry.management_class, out)
}

/// A comma and a name, or nothing after the comma where there is none.
fn say_name(name: &Option<Name>, out: &mut Answers) {
    out.say(",");
    match name {
        None => {}
        Some(name) => out.say_bytes(name.as_slice()),
    }
}
