//! What a run leaves, beside what a plain, slow file says of it.

use crate::answers::{Answer, Stop, text_of};
use crate::contents::Contents;
use crate::numbered::Job;
use crate::one_volume::{VolumeEnd, run_job};
use crate::plain::{Answered, Places, PlainFile, key_in, quoted};
use crate::running::{DECK, job_of};
use std::alloc::Global;
use std::sync::Wait;
use std::thread::Threads;
use vr_device::MemoryDevice;
use vr_history::{Entry, What};
use vr_job::End;
use vr_trace::EndLine;
use vr_types::{Bytes, Place, Refusal, Reply};

/// The line of the job text at which a deck's further lines begin.
const FIRST: u32 = 4;

/// A deck whose runs are judged: its lines, where its records are, the job that runs it, the job that
/// reads the records of its file, and what it commits.
#[derive(Drop)]
pub struct Case {
    text: String,
    places: Places,
    pub job: Job,
    pub reader: Job,
    commits: Vec<Contents>,
}

/// The deck of a question on a volume with blocks of this size: `PLACES LINES`, where PLACES is the
/// length of a key, `R` or `E`.
pub fn case_of(alloc: Global, size: u32, rest: &str) -> Result<Case, Stop> {
    let (places, text) = rest.split_once(' ').ok_or(Stop::Line)?;
    case_with(alloc, places_of(size, places)?, text, text)
}

/// The two decks of a question, one after the other: `PLACES LINES => LINES`. What reads their file
/// knows of the records of both.
pub fn cases_of(alloc: Global, size: u32, rest: &str) -> Result<(Case, Case), Stop> {
    let (places, both) = rest.split_once(' ').ok_or(Stop::Line)?;
    let places = places_of(size, places)?;
    let (first, then) = both.split_once(" => ").ok_or(Stop::Line)?;
    let mut all = String::from_str(alloc, first)?;
    all.push('|')?;
    all.push_str(then)?;
    let first = case_with(alloc, places, first, all.as_str())?;
    let then = case_with(alloc, places, then, all.as_str())?;
    Ok((first, then))
}

fn places_of(size: u32, word: &str) -> Result<Places, Stop> {
    match word {
        "R" => Ok(Places::Slots),
        "E" => Ok(Places::Addresses(size)),
        _ => Ok(Places::Keys(word.parse().ok().ok_or(Stop::Line)?)),
    }
}

/// A deck with such places, beside the lines that add the records that are read.
fn case_with(alloc: Global, places: Places, text: &str, added: &str) -> Result<Case, Stop> {
    let lines = text_of(alloc, DECK, text)?;
    let reads = reads_of(alloc, added, places)?;
    let commits = commits_of(alloc, text, places)?;
    Ok(Case {
        text: String::from_str(alloc, text)?,
        places,
        job: job_of(alloc, lines.as_slice())?,
        reader: job_of(alloc, reads.as_slice())?,
        commits,
    })
}

/// The text of a job that reads the records of a file to which a deck adds some.
fn reads_of(alloc: Global, deck: &str, places: Places) -> Result<Vec<u8>, Stop> {
    let mut seen = Contents::new(alloc);
    let mut text = String::from_str(alloc, DECK)?;
    match add_reads(alloc, deck, places, &mut seen, &mut text) {
        Ok(()) => Ok(text.as_bytes().to_vec(alloc)?),
        Err(stop) => Err(stop),
    }
}

fn add_reads(
    alloc: Global,
    deck: &str,
    places: Places,
    seen: &mut Contents,
    text: &mut String,
) -> Answer {
    match places {
        Places::Keys(keys) => add_keyed(alloc, deck, keys, seen, text),
        Places::Slots | Places::Addresses(_) => add_sequential(deck, text),
    }
}

/// As many reads of the next record as the deck adds records, and one more.
fn add_sequential(deck: &str, text: &mut String) -> Answer {
    for line in deck.split('|') {
        if line.starts_with("PUT F ") && !line.starts_with("PUT F UPD ") {
            text.push_str("GET F SEQ\n")?;
        }
    }
    text.push_str("GET F SEQ\n")?;
    Ok(())
}

/// A read of each record of which the deck adds one with its key.
fn add_keyed(
    alloc: Global,
    deck: &str,
    keys: usize,
    seen: &mut Contents,
    text: &mut String,
) -> Answer {
    for line in deck.split('|') {
        if line.starts_with("PUT F DATA=") {
            add_read(alloc, quoted(line), keys, seen, text)?;
        }
    }
    Ok(())
}

fn add_read(
    alloc: Global,
    record: &str,
    keys: usize,
    seen: &mut Contents,
    text: &mut String,
) -> Answer {
    let key = key_in(record.as_bytes(), keys);
    if !seen.has(key) {
        seen.add(alloc, key, key)?;
        text.push_str("GET F KEY=C'")?;
        text.push_str(record.get(..keys).unwrap_or(record))?;
        text.push_str("'\n")?;
    }
    Ok(())
}

/// What is committed before a deck and after each of its COMMITs, of which one is at its end.
fn commits_of(alloc: Global, deck: &str, places: Places) -> Result<Vec<Contents>, Stop> {
    let mut file = PlainFile::new(alloc, places);
    let mut commits = Vec::new(alloc);
    match add_commits(alloc, deck, &mut file, &mut commits) {
        Ok(()) => Ok(commits),
        Err(stop) => Err(stop),
    }
}

fn add_commits(
    alloc: Global,
    deck: &str,
    file: &mut PlainFile,
    commits: &mut Vec<Contents>,
) -> Answer {
    for line in deck.split('|') {
        commits.push(file.committed().copy(alloc)?)?;
        file.serve(alloc, line, None)?;
    }
    commits.push(file.committed().copy(alloc)?)?;
    file.serve(alloc, "COMMIT", None)?;
    commits.push(file.committed().copy(alloc)?)?;
    Ok(())
}

impl Case {
    /// Whether these contents are committed once a first part of the deck is done.
    pub fn commits(&self, found: &Contents) -> bool {
        self.commits.iter().any(|one| one.is(found))
    }

    /// Whether these contents are committed once the deck is done.
    pub fn ends_with(&self, found: &Contents) -> bool {
        match self.commits.last() {
            Some(last) => last.is(found),
            None => false,
        }
    }

    /// The line of the deck at a line of its job. Line 0 is the COMMIT at its end.
    fn line_at(&self, line: u32) -> &str {
        if line < FIRST {
            return "COMMIT";
        }
        let at = line - FIRST;
        for (number, text) in self.text.as_str().split('|').enumerate() {
            if number == at as usize {
                return text;
            }
        }
        ""
    }

    /// What a run of the deck leaves of a plain file that is empty before, by what its lines were answered.
    pub fn left(&self, alloc: Global, end: &VolumeEnd) -> Result<PlainFile, Stop> {
        self.left_over(alloc, PlainFile::new(alloc, self.places), end)
    }

    /// The same of this plain file.
    pub fn left_over(
        &self,
        alloc: Global,
        mut file: PlainFile,
        end: &VolumeEnd,
    ) -> Result<PlainFile, Stop> {
        match self.take_in(alloc, end.history.entries(), &mut file) {
            Ok(()) => Ok(file),
            Err(stop) => Err(stop),
        }
    }

    fn take_in(&self, alloc: Global, entries: &[Entry], file: &mut PlainFile) -> Answer {
        for entry in entries {
            match &entry.what {
                What::Asked { reply, .. } => {
                    let line = self.line_at(entry.line);
                    file.answer(alloc, line, &answered(reply))?;
                }
                What::Undone { place, .. } => file.undo(alloc, place.as_slice())?,
                _ => {}
            }
        }
        Ok(())
    }

    /// Reads the records of the volume on a device, which is opened first. None where it isn't, or
    /// where a record could not be read.
    pub fn read<R: Threads + Wait + Sync>(
        &self,
        rt: &R,
        alloc: Global,
        device: MemoryDevice,
    ) -> Result<Option<Contents>, Stop> {
        let end = run_job(rt, alloc, device, &self.reader)?;
        self.found(alloc, &end)
    }

    fn found(&self, alloc: Global, end: &VolumeEnd) -> Result<Option<Contents>, Stop> {
        if end.end != End::Ran {
            return Ok(None);
        }
        let mut found = Contents::new(alloc);
        match add_found(alloc, end.history.entries(), &mut found) {
            Ok(true) => Ok(Some(found)),
            Ok(false) => Ok(None),
            Err(stop) => Err(stop),
        }
    }
}

/// Adds the records that requests were answered with. False where one was refused otherwise than for
/// want of its record.
fn add_found(alloc: Global, entries: &[Entry], found: &mut Contents) -> Result<bool, Stop> {
    for entry in entries {
        let What::Asked { reply, .. } = &entry.what else {
            return Ok(false);
        };
        match reply {
            Reply::Done {
                place: Some(place),
                bytes: Some(bytes),
                ..
            } => found.add(alloc, place.as_slice(), bytes.as_slice())?,
            Reply::Done { .. } => {}
            Reply::Refused(Refusal::NotFound | Refusal::EndOfData) => {}
            Reply::Refused(_) => return Ok(false),
        }
    }
    Ok(true)
}

/// What a reply shows: 0 or why the request was refused, and the place and the record that it has.
fn answered(reply: &Reply) -> Answered<'_> {
    match reply {
        Reply::Done { place, bytes, .. } => Answered {
            code: 0,
            place: place_in(place),
            bytes: bytes_in(bytes),
        },
        Reply::Refused(refusal) => Answered {
            code: refusal.code(),
            place: None,
            bytes: None,
        },
    }
}

fn place_in(place: &Option<Place>) -> Option<&[u8]> {
    match place {
        Some(place) => Some(place.as_slice()),
        None => None,
    }
}

fn bytes_in(bytes: &Option<Bytes>) -> Option<&[u8]> {
    match bytes {
        Some(bytes) => Some(bytes.as_slice()),
        None => None,
    }
}

/// Whether a run came through, or ended with a fault of its device before its first request or after
/// its last one.
pub fn ended_well(end: &VolumeEnd) -> bool {
    match end.end {
        End::Ran => true,
        End::Unsynced(_) => end.history.entries().last().is_none_or(is_last),
        End::Line(EndLine::DeviceFault { .. }) => end.history.entries().is_empty(),
        End::Line(_) => false,
    }
}

/// Whether an entry is that of the COMMIT at the end of a deck.
fn is_last(entry: &Entry) -> bool {
    entry.line == 0 && matches!(entry.what, What::Asked { .. })
}
