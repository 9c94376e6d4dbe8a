//! DEFINE, ALTER and DELETE as text.

use vr_amsparse::{DefineCommand, DeleteCommand};
use vr_case_table::Answers;
use vr_catalog::{Alter, DataOptions, EntryKind, FreeSpace, NewEntry, ShareOptions, SpaceUnit};
use vr_types::{Bytes, Kind, Name};

/// DEFINE with its operands.
pub fn say_define(define: &DefineCommand, out: &mut Answers) {
    out.say("DEFINE");
    say_text(define.order.name.as_slice(), out);
    say_entry(&define.order.what, out);
    say_volume(&define.volume, out)
}

fn say_entry(what: &NewEntry, out: &mut Answers) {
    match what {
        NewEntry::Cluster {
            kind,
            spanned,
            options,
        } => {
            out.say(kind_text(*kind));
            out.say(if *spanned { " SPANNED" } else { "" });
            say_options(options, out)
        }
        NewEntry::Alternate {
            related,
            unique,
            options,
        } => {
            out.say(" AIX");
            say_text(related.as_slice(), out);
            out.say(if *unique { " UNIQUE" } else { "" });
            say_options(options, out)
        }
        NewEntry::Path { related } => {
            out.say(" PATH");
            say_text(related.as_slice(), out)
        }
    }
}

fn kind_text(kind: Kind) -> &'static str {
    match kind {
        Kind::Keyed => " KSDS",
        Kind::Entry => " ESDS",
        Kind::Relative => " RRDS",
    }
}

/// What differs from the defaults of space and names, after the numbers that are always shown.
fn say_options(options: &DataOptions, out: &mut Answers) {
    out.say(" KEYS");
    out.say_number(" ", options.key_length as u64);
    out.say_number(" ", options.key_offset as u64);
    out.say(" SIZE");
    out.say_number(" ", options.average as u64);
    out.say_number(" ", options.maximum as u64);
    say_free(options.free_space, out);
    say_share(options.share_options, out);
    say_space(options, out);
    say_names(options, out)
}

fn say_free(free: FreeSpace, out: &mut Answers) {
    out.say(" FREE");
    out.say_number(" ", free.interval as u64);
    out.say_number(" ", free.area as u64)
}

fn say_share(share: ShareOptions, out: &mut Answers) {
    out.say(" SHARE");
    out.say_number(" ", share.regions as u64);
    out.say_number(" ", share.systems as u64)
}

fn say_space(options: &DataOptions, out: &mut Answers) {
    out.say(match options.space {
        SpaceUnit::Unstated => " NOSPACE",
        SpaceUnit::Cylinders => " CYL",
        SpaceUnit::Tracks => " TRK",
        SpaceUnit::Records => " REC",
    });
    out.say_number(" ", options.primary as u64);
    out.say_number(" ", options.secondary as u64);
    out.say(" CISZ");
    out.say_number(" ", options.interval_size as u64)
}

fn say_names(options: &DataOptions, out: &mut Answers) {
    say_name(&options.data_name, out);
    say_name(&options.index_name, out);
    say_name(&options.storage_class, out);
    say_name(&options.data_class, out);
    say_name(&options.management_class, out)
}

fn say_volume(volume: &Option<Bytes>, out: &mut Answers) {
    match volume {
        None => {},
        Some(serial) => {
            out.say(" VOL");
            say_text(serial.as_slice(), out)
        }
    }
}

/// ALTER with what it changes.
pub fn say_alter(alter: &Alter, out: &mut Answers) {
    out.say("ALTER");
    say_text(alter.name.as_slice(), out);
    say_name(&alter.new_name, out);
    if let Some(free) = alter.free_space {
        say_free(free, out);
    }
    match alter.share_options {
        None => {},
        Some(share) => say_share(share, out),
    }
}

/// DELETE with its names and operands.
pub fn say_delete(delete: &DeleteCommand, out: &mut Answers) {
    out.say("DELETE");
    for name in delete.names.as_slice() {
        say_text(name.as_slice(), out);
    }
    out.say(match delete.kind {
        None => "",
        Some(EntryKind::Cluster) => " CLUSTER",
        Some(EntryKind::Alternate) => " AIX",
        Some(EntryKind::Path) => " PATH",
    })
}

/// Writes a blank and a text.
pub fn say_text(bytes: &[u8], out: &mut Answers) {
    out.say(" ");
    out.say_bytes(bytes);
}

/// Writes a name, or a hyphen for none.
fn say_name(name: &Option<Name>, out: &mut Answers) {
    match name {
        None => out.say(" -"),
        Some(name) => say_text(name.as_slice(), out),
    }
}
