//! Which call a question asks.

use crate::desk::CatalogDesk;
use crate::{befores, commands, judge, pairs, records};
use std::alloc::Global;
use vr_case_table::{Answer, Answers, Desk, Stop, parted, small_of, word_of};
use vr_catalog::{Catalog, intervals_used, plain_limit, spanned_limit};

impl Desk for CatalogDesk {
    fn answer(&mut self, line: &str, out: &mut Answers) -> Answer {
        let alloc = out.alloc();
        let (verb, rest) = parted(line);
        match verb {
            "undo" => befores::answer(alloc, &mut self.undo, rest, out),
            "judge" => judge::judge(alloc, self, rest, out),
            "catalog" => catalog(alloc, self, rest, out),
            "pair" => pairs::pair_of(alloc, rest, out),
            "changes" => pairs::changes_of(alloc, rest, out),
            "define" => commands::define_one(alloc, self, rest, out),
            "alter" => commands::alter_one(alloc, self, rest, out),
            "delete" => commands::delete_some(alloc, self, rest, out),
            _ => record(alloc, self, verb, rest, out),
        }
    }
}

/// A question about a record.
fn record(
    alloc: Global,
    desk: &mut CatalogDesk,
    verb: &str,
    rest: &str,
    out: &mut Answers,
) -> Answer {
    match verb {
        "record" => records::make(alloc, desk, rest, out),
        "bytes" => records::bytes_at(desk, rest, out),
        "read" => records::read(alloc, desk, rest, out),
        "cut" => records::cut(alloc, desk, rest, out),
        "rewrite" => records::rewrite(alloc, desk, rest, out),
        "add" => records::add(alloc, desk, rest, out),
        _ => limits(desk, verb, rest, out),
    }
}

/// A question to the catalog itself.
fn catalog(alloc: Global, desk: &mut CatalogDesk, rest: &str, out: &mut Answers) -> Answer {
    let (verb, rest) = parted(rest);
    match verb {
        "empty" => {
            desk.catalog = Catalog::new(alloc);
            out.ok()
        }
        "find" => records::find(alloc, desk, rest, out),
        "part" => records::part(desk, rest, out),
        "fill" => records::fill(alloc, desk, rest, out),
        "copy" => records::copied(alloc, desk, out),
        _ => Err(Stop::Line),
    }
}

/// A question about the shape of the volume.
fn limits(desk: &mut CatalogDesk, verb: &str, rest: &str, out: &mut Answers) -> Answer {
    let (first, rest) = parted(rest);
    match verb {
        "volume" => {
            desk.geometry.size = word_of(first)?;
            desk.geometry.area = word_of(rest)?;
            out.say("ok");
        }
        "intervals" => {
            let length = word_of(first)?;
            out.say_number("", intervals_used(&desk.geometry, length) as u64);
        }
        "plain" => out.say_number("", plain_limit(&desk.geometry) as u64),
        "spanned" => {
            let length = small_of(first)?;
            out.say_number("", spanned_limit(&desk.geometry, length));
        }
        "valid" => return records::valid(first, rest, out),
        _ => return Err(Stop::Line),
    }
    Ok(())
}
