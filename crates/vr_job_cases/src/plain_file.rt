//! The record file by its rules, plainly and slowly: a list of records in no order, searched from its
//! first record at each request, and beside it the list as it was last committed. Every small deck is
//! run through it and through `run_job`, which has to print the same.

use crate::answers::{Answer, Stop, say_right};
use crate::jobs::{NONE, Printed, print_job};
use crate::shelf::new_shelf;
use std::alloc::Global;
use std::fmt::Write;
use std::sync::Wait;
use std::thread::Threads;

/// What a deck may ask here.
#[derive(Clone, Copy)]
enum Asked {
    Put(&'static str),
    Get(&'static str),
    GetUpd(&'static str),
    PutUpd(&'static str),
    Erase,
    EndReq,
    Commit,
    Backout,
}

/// Requests on two keys, 00000001 and 00000000.
fn all_asked() -> [Asked; 10] {
    [
        Asked::Put("00000001B"),
        Asked::Put("00000000C"),
        Asked::Get("00000000"),
        Asked::GetUpd("00000001"),
        Asked::PutUpd("00000001IT"),
        Asked::PutUpd("00000000D"),
        Asked::Erase,
        Asked::EndReq,
        Asked::Commit,
        Asked::Backout,
    ]
}

/// The records as they are and as they were committed last, and the one that is held for update.
#[derive(Drop)]
struct File {
    records: Vec<&'static str>,
    committed: Vec<&'static str>,
    held: Option<&'static str>,
}

/// The key of a record, which is its first 8 bytes.
fn key_of(record: &'static str) -> &'static str {
    record.get(..8).unwrap_or(record)
}

/// The number of the record with a key.
fn number_of(records: &[&'static str], key: &str) -> Option<usize> {
    for at in 0..records.len() {
        if key_of(records[at]) == key {
            return Some(at);
        }
    }
    None
}

/// Replaces the records of a list by those of another.
fn replace(alloc: Global, list: &mut Vec<&'static str>, by: &[&'static str]) -> Answer {
    *list = by.to_vec(alloc)?;
    Ok(())
}

impl File {
    /// No records.
    fn new(alloc: Global) -> File {
        File {
            records: Vec::new(alloc),
            committed: Vec::new(alloc),
            held: None,
        }
    }

    /// Writes the end of the reply's line, after its verb and the file's name. Each request on the
    /// file first lets go what is held.
    fn reply(&mut self, alloc: Global, asked: Asked, out: &mut String) -> Answer {
        let held = self.held.take();
        match asked {
            Asked::Put(record) => self.put(record, out),
            Asked::Get(key) => self.get(key, false, out),
            Asked::GetUpd(key) => self.get(key, true, out),
            Asked::PutUpd(record) => self.update(held, record, out),
            Asked::Erase => self.erase(held, out),
            Asked::EndReq => say_done(out),
            Asked::Commit => {
                replace(alloc, &mut self.committed, self.records.as_slice())?;
                say_done(out)
            }
            Asked::Backout => {
                replace(alloc, &mut self.records, self.committed.as_slice())?;
                say_done(out)
            }
        }
    }

    /// Adds a record, where none has its key.
    fn put(&mut self, record: &'static str, out: &mut String) -> Answer {
        if number_of(self.records.as_slice(), key_of(record)).is_some() {
            return refuse(out, 8);
        }
        self.records.push(record)?;
        say_at(out, key_of(record))
    }

    /// Gets the record of a key, perhaps to hold it.
    fn get(&mut self, key: &'static str, holds: bool, out: &mut String) -> Answer {
        let Some(at) = number_of(self.records.as_slice(), key) else {
            return refuse(out, 16);
        };
        let record = *self.records.get(at).ok_or(Stop::Line)?;
        if holds {
            self.held = Some(key);
        }
        say_at(out, key)?;
        write!(out, " DATA=C'{record}'")?;
        Ok(())
    }

    /// Puts another record in place of the one that was held, with the same key.
    fn update(
        &mut self,
        held: Option<&'static str>,
        record: &'static str,
        out: &mut String,
    ) -> Answer {
        let Some(key) = held else {
            return refuse(out, 92);
        };
        if key_of(record) != key {
            return refuse(out, 96);
        }
        let at = number_of(self.records.as_slice(), key).ok_or(Stop::Line)?;
        let place = self.records.get_mut(at).ok_or(Stop::Line)?;
        *place = record;
        say_at(out, key)
    }

    /// Takes the record away that was held.
    fn erase(&mut self, held: Option<&'static str>, out: &mut String) -> Answer {
        let Some(key) = held else {
            return refuse(out, 92);
        };
        let at = number_of(self.records.as_slice(), key).ok_or(Stop::Line)?;
        if at < self.records.len() {
            self.records.swap_remove(at);
        }
        say_at(out, key)
    }
}

fn refuse(out: &mut String, feedback: u32) -> Answer {
    write!(out, "RC=8 FB={feedback}")?;
    Ok(())
}

fn say_done(out: &mut String) -> Answer {
    write!(out, "RC=0 FB=0")?;
    Ok(())
}

fn say_at(out: &mut String, key: &str) -> Answer {
    write!(out, "RC=0 FB=0 AT=C'{key}'")?;
    Ok(())
}

/// Writes the line of a deck that asks this.
fn say_asked(text: &mut String, asked: Asked) -> Answer {
    match asked {
        Asked::Put(record) => write!(text, "PUT F DATA=C'{record}'\n")?,
        Asked::Get(key) => write!(text, "GET F KEY=C'{key}'\n")?,
        Asked::GetUpd(key) => write!(text, "GET F KEY=C'{key}' UPD\n")?,
        Asked::PutUpd(record) => write!(text, "PUT F UPD DATA=C'{record}'\n")?,
        Asked::Erase => text.push_str("ERASE F\n")?,
        Asked::EndReq => text.push_str("ENDREQ F\n")?,
        Asked::Commit => text.push_str("COMMIT\n")?,
        Asked::Backout => text.push_str("BACKOUT\n")?,
    }
    Ok(())
}

/// The verb of a request, and the name of its file.
fn verb_of(asked: Asked) -> &'static str {
    match asked {
        Asked::Put(_) | Asked::PutUpd(_) => "PUT F",
        Asked::Get(_) | Asked::GetUpd(_) => "GET F",
        Asked::Erase => "ERASE F",
        Asked::EndReq => "ENDREQ F",
        Asked::Commit => "COMMIT",
        Asked::Backout => "BACKOUT",
    }
}

/// A job's text and its listing, as far as they are written, with the records.
#[derive(Drop)]
struct Job {
    text: String,
    listing: String,
    file: Box<File>,
}

impl Job {
    fn new(alloc: Global) -> Result<Job, Stop> {
        let file = Box::new(alloc, File::new(alloc))?;
        Ok(Job {
            text: String::new(alloc),
            listing: String::new(alloc),
            file,
        })
    }

    /// Writes the line of a request into the listing.
    fn list(&mut self, alloc: Global, deck: u32, line: u32, asked: Asked) -> Answer {
        let verb = verb_of(asked);
        write!(self.listing, "DECK {deck} LINE {line} VOL 0 {verb} ")?;
        self.file.reply(alloc, asked, &mut self.listing)?;
        self.listing.push_str("\n")?;
        Ok(())
    }

    /// Writes a request of a deck, on this line of the text.
    fn ask(&mut self, alloc: Global, deck: u32, line: u32, asked: Asked) -> Answer {
        say_asked(&mut self.text, asked)?;
        self.list(alloc, deck, line, asked)
    }

    /// Writes the card of a step, and its heading in the listing.
    fn step(&mut self, name: &str) -> Answer {
        write!(self.text, "//{name} EXEC PGM=VRMDECK\n")?;
        write!(self.listing, "STEP {name} DECKS\n")?;
        Ok(())
    }

    /// Writes the last line of a step in the listing.
    fn end_step(&mut self, name: &str) -> Answer {
        write!(self.listing, "STEP {name} CODE 0\n")?;
        Ok(())
    }

    /// Writes a deck of these requests, whose card is on this line of the text.
    fn deck(&mut self, alloc: Global, deck: u32, card: u32, requests: &[Asked]) -> Answer {
        write!(self.text, "//DECK{deck} DD *\nFILE F VRM.FIRST\n")?;
        let mut line = card.saturating_add(2);
        for asked in requests {
            self.ask(alloc, deck, line, *asked)?;
            line = line.saturating_add(1);
        }
        self.list(alloc, deck, 0, Asked::Commit)
    }
}

/// Writes a job of two steps, each of one deck: the first adds a record, commits it, and asks for
/// three things; the second asks for the records of both keys.
fn write_job(alloc: Global, job: &mut Job, three: [Asked; 3]) -> Answer {
    let [first, second, third] = three;
    let begun = Asked::Put("00000001A");
    job.step("S")?;
    job.deck(alloc, 1, 2, &[begun, Asked::Commit, first, second, third])?;
    job.end_step("S")?;
    job.step("T")?;
    job.deck(
        alloc,
        2,
        10,
        &[Asked::Get("00000001"), Asked::Get("00000000")],
    )?;
    job.end_step("T")?;
    job.listing.push_str("JOB CODE 0\n")?;
    Ok(())
}

/// Runs a job on a small new volume.
fn print_small<R: Threads + Wait + Sync>(
    rt: &R,
    alloc: Global,
    text: &str,
) -> Result<Printed, Stop> {
    let shelf = new_shelf(alloc, 512, 16, &[])?;
    let made = print_job(rt, alloc, "format DIR 1 512 16 2 4", b"", NONE, shelf)?;
    print_job(rt, alloc, "run JOB DIR", text.as_bytes(), NONE, made.shelf)
}

/// Whether a job prints what the rules say.
fn is_right<R: Threads + Wait + Sync>(
    rt: &R,
    alloc: Global,
    three: [Asked; 3],
) -> Result<bool, Stop> {
    let mut job = Job::new(alloc)?;
    write_job(alloc, &mut job, three)?;
    let printed = print_small(rt, alloc, job.text.as_str())?;
    Ok(printed.status == 0 && printed.text.as_slice() == job.listing.as_bytes())
}

/// How many of all decks that go on with these two requests and a third print what the rules say.
fn judge_two<R: Threads + Wait + Sync>(
    rt: &R,
    alloc: Global,
    first: Asked,
    second: Asked,
) -> Result<u64, Stop> {
    let mut right = 0u64;
    for third in all_asked() {
        if is_right(rt, alloc, [first, second, third])? {
            right = right.saturating_add(1);
        }
    }
    Ok(right)
}

/// How many of all decks of three requests print what the rules say.
pub fn judge<R: Threads + Wait + Sync>(rt: &R, alloc: Global, out: &mut String) -> Answer {
    let (mut right, mut all) = (0u64, 0u64);
    for first in all_asked() {
        for second in all_asked() {
            let more = judge_two(rt, alloc, first, second)?;
            right = right.saturating_add(more);
            all = all.saturating_add(all_asked().len() as u64);
        }
    }
    say_right(out, right, all)
}
