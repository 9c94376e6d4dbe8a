//! A plain, slow file: what each line of a deck is answered on it, and which contents are committed.
//! It shares nothing with the code that runs jobs.

use crate::answers::{Answer, Stop};
use crate::contents::Contents;
use std::alloc::Global;

/// Where the records of a file are.
#[derive(Clone, Copy)]
pub enum Places {
    /// Under their keys: their first bytes, so many.
    Keys(usize),
    /// In slots, under their numbers in four bytes.
    Slots,
    /// At their addresses in four bytes, in intervals of this many bytes.
    Addresses(u32),
}

/// Where the records of an entry-sequenced file end, withdrawn ones too: where the last interval of one
/// begins, the bytes that are used of it, and those of its records with three for each.
#[derive(Clone, Copy)]
struct Tail {
    start: u32,
    bytes: u32,
    room: u32,
}

impl Tail {
    /// The address past all records, where they are known up to this one.
    fn at(start: u32) -> Tail {
        Tail {
            start,
            bytes: 0,
            room: 0,
        }
    }

    /// The address past the last record.
    fn end(self) -> u32 {
        self.start.saturating_add(self.bytes)
    }

    /// Adds a record of this length: after the last one, where the interval has room, else in the next.
    /// Answers its address.
    fn add(&mut self, size: u32, length: u32) -> u32 {
        let room = self.room.saturating_add(length).saturating_add(3);
        if room > size.saturating_sub(4) {
            *self = Tail::at(self.start.saturating_add(size));
        }
        let at = self.end();
        self.bytes = self.bytes.saturating_add(length);
        self.room = self.room.saturating_add(length).saturating_add(3);
        at
    }
}

/// A file, and the one unit of recovery that changes it.
#[derive(Drop)]
pub struct PlainFile {
    places: Places,
    now: Contents,
    committed: Contents,
    /// What a COMMIT would have committed that a fault of the device refused.
    perhaps: Option<Contents>,
    /// The place of the record that is held for update.
    held: Option<Vec<u8>>,
    /// The place at which the last line that was done found a record, or left or took one.
    met: Vec<u8>,
    /// Where the next record of an entry-sequenced file goes.
    tail: Tail,
    /// The address past all records of units that have ended.
    ended: u32,
    /// Whether a crash has left the file, so that what it withdrew isn't known: the next record may then
    /// go to any address past those that are.
    crashed: bool,
    /// Whether a write failed.
    stopped: bool,
    /// How many lines were refused for a fault of the device.
    faults: u32,
    /// Whether a line was answered otherwise than it has to be.
    wrong: bool,
}

impl PlainFile {
    /// An empty file with such places.
    pub fn new(alloc: Global, places: Places) -> PlainFile {
        PlainFile {
            places,
            now: Contents::new(alloc),
            committed: Contents::new(alloc),
            perhaps: None,
            held: None,
            met: Vec::new(alloc),
            tail: Tail::at(0),
            ended: 0,
            crashed: false,
            stopped: false,
            faults: 0,
            wrong: false,
        }
    }

    /// The file as a crash has left it, which was found with these records.
    pub fn left_with(&self, alloc: Global, records: &Contents) -> Result<PlainFile, Stop> {
        let mut file = PlainFile::new(alloc, self.places);
        match file.begin_with(alloc, records, self.ended) {
            Ok(()) => Ok(file),
            Err(stop) => Err(stop),
        }
    }

    fn begin_with(&mut self, alloc: Global, records: &Contents, ended: u32) -> Answer {
        self.now = records.copy(alloc)?;
        self.committed = records.copy(alloc)?;
        let past = match records.last() {
            Some((place, bytes)) => number_of(place).saturating_add(length_of(bytes)),
            None => 0,
        };
        self.ended = past.max(ended);
        self.tail = Tail::at(self.ended);
        self.crashed = true;
        Ok(())
    }

    /// What is committed.
    pub fn committed(&self) -> &Contents {
        &self.committed
    }

    /// How many lines were refused for a fault of the device.
    pub fn faults(&self) -> u32 {
        self.faults
    }

    /// Whether a line was answered otherwise than it has to be.
    pub fn is_wrong(&self) -> bool {
        self.wrong
    }

    /// Whether the file may be found with these contents: what is committed, or what a COMMIT would
    /// have committed that a fault refused.
    pub fn may_be(&self, found: &Contents) -> bool {
        let perhaps = match &self.perhaps {
            Some(contents) => contents.is(found),
            None => false,
        };
        perhaps || self.committed.is(found)
    }

    /// Takes it in how a line was answered. A fault of the device (904 and 905) may come at any line, and
    /// 903 at each after 905; any other answer has to be that of this file.
    pub fn answer(&mut self, alloc: Global, line: &str, reply: &Answered<'_>) -> Answer {
        let wanted = match reply.code {
            903 => self.stopped,
            904 | 905 => self.fail(alloc, line, reply.code == 905)?,
            _ => self.is_answer(alloc, line, reply)?,
        };
        self.wrong = self.wrong || !wanted;
        Ok(())
    }

    /// Takes a fault of the device in, of a write or of a read.
    fn fail(&mut self, alloc: Global, line: &str, write: bool) -> Result<bool, Stop> {
        let going = !self.stopped;
        self.faults = self.faults.saturating_add(1);
        self.stopped = self.stopped || write;
        if line != "COMMIT" && line != "BACKOUT" {
            self.held = None;
        }
        if write && line == "COMMIT" {
            self.perhaps = Some(self.now.copy(alloc)?);
        }
        Ok(going)
    }

    /// Whether a line is answered so on this file. It takes in that the line is done.
    fn is_answer(&mut self, alloc: Global, line: &str, reply: &Answered<'_>) -> Result<bool, Stop> {
        let wanted = self.serve(alloc, line, reply.place)?;
        let there = match reply.place {
            Some(place) => self.met.as_slice() == place,
            None => true,
        };
        let lent = match reply.bytes {
            Some(bytes) => self.now.get(self.met.as_slice()) == Some(bytes),
            None => true,
        };
        Ok(!self.stopped && wanted == reply.code && there && lent)
    }

    /// Does what a line asks for, and answers its code. After a crash an added record of an
    /// entry-sequenced file goes where the reply says that it went, if it may.
    pub fn serve(&mut self, alloc: Global, line: &str, went: Option<&[u8]>) -> Result<u16, Stop> {
        match line {
            "COMMIT" => {
                self.held = None;
                self.ended = self.tail.end();
                self.committed = self.now.copy(alloc)?;
                Ok(0)
            }
            "BACKOUT" => {
                self.held = None;
                self.ended = self.tail.end();
                self.now = self.committed.copy(alloc)?;
                Ok(0)
            }
            _ => self.serve_file(alloc, line, went),
        }
    }

    /// The same of a line on the file, which holds no record any more then.
    fn serve_file(&mut self, alloc: Global, line: &str, went: Option<&[u8]>) -> Result<u16, Stop> {
        let held = self.held.take();
        if line.starts_with("GET F ") {
            self.find(alloc, line)
        } else if line.starts_with("PUT F UPD ") {
            self.update(alloc, quoted(line).as_bytes(), held)
        } else if line.starts_with("PUT F ") {
            self.add(alloc, line, went)
        } else if line == "ERASE F" {
            Ok(self.erase(held))
        } else if line == "ENDREQ F" {
            Ok(0)
        } else {
            Err(Stop::Line)
        }
    }

    fn find(&mut self, alloc: Global, line: &str) -> Result<u16, Stop> {
        let place = asked(alloc, self.places, line)?;
        if !self.now.has(place.as_slice()) {
            return Ok(missing(self.places));
        }
        if line.ends_with(" UPD") {
            self.held = Some(place.as_slice().to_vec(alloc)?);
        }
        self.met = place;
        Ok(0)
    }

    fn add(&mut self, alloc: Global, line: &str, went: Option<&[u8]>) -> Result<u16, Stop> {
        let bytes = quoted(line).as_bytes();
        let place = match self.places {
            Places::Keys(keys) => key_in(bytes, keys).to_vec(alloc)?,
            Places::Slots => asked(alloc, self.places, line)?,
            Places::Addresses(size) => {
                let at = self.next(size, length_of(bytes), went);
                at.to_be_bytes().as_slice().to_vec(alloc)?
            }
        };
        if self.now.has(place.as_slice()) {
            return Ok(8);
        }
        self.now.add(alloc, place.as_slice(), bytes)?;
        self.met = place;
        Ok(0)
    }

    /// The address of the next record, and moves on past it.
    fn next(&mut self, size: u32, length: u32, went: Option<&[u8]>) -> u32 {
        match went {
            Some(place) if self.crashed => {
                self.tail = Tail::at(number_of(place).max(self.tail.end()));
                self.tail.add(size, length)
            }
            _ => self.tail.add(size, length),
        }
    }

    fn update(&mut self, alloc: Global, bytes: &[u8], held: Option<Vec<u8>>) -> Result<u16, Stop> {
        let Some(held) = held else {
            return Ok(92);
        };
        if self.changes_key(held.as_slice(), bytes) {
            return Ok(96);
        }
        self.now.set(alloc, held.as_slice(), bytes)?;
        self.met = held;
        Ok(0)
    }

    /// Whether a record has another key than that of the record that is held.
    fn changes_key(&self, held: &[u8], bytes: &[u8]) -> bool {
        match self.places {
            Places::Keys(keys) => held != key_in(bytes, keys),
            _ => false,
        }
    }

    fn erase(&mut self, held: Option<Vec<u8>>) -> u16 {
        match held {
            Some(place) => {
                self.now.remove(place.as_slice());
                self.met = place;
                0
            }
            None => 92,
        }
    }

    /// Takes it in that the record at a place was put back as it was committed.
    pub fn undo(&mut self, alloc: Global, place: &[u8]) -> Answer {
        self.now.remove(place);
        if let Some(bytes) = self.committed.get(place) {
            self.now.add(alloc, place, bytes)?;
        }
        Ok(())
    }
}

/// How a line was answered: its code, and the place and the bytes of a record.
#[derive(Clone, Copy)]
pub struct Answered<'a> {
    pub code: u16,
    pub place: Option<&'a [u8]>,
    pub bytes: Option<&'a [u8]>,
}

/// The code of a line that finds no record at its place.
fn missing(places: Places) -> u16 {
    match places {
        Places::Addresses(_) => 32,
        _ => 16,
    }
}

/// The place that a line asks for: its key, or the number of its slot or address.
fn asked(alloc: Global, places: Places, line: &str) -> Result<Vec<u8>, Stop> {
    match places {
        Places::Keys(_) => Ok(quoted(line).as_bytes().to_vec(alloc)?),
        Places::Slots => numbered(alloc, line, "RRN="),
        Places::Addresses(_) => numbered(alloc, line, "RBA="),
    }
}

/// The number that follows a word in a line, in four bytes.
fn numbered(alloc: Global, line: &str, word: &str) -> Result<Vec<u8>, Stop> {
    let (_, rest) = line.split_once(word).ok_or(Stop::Line)?;
    let (digits, _) = rest.split_once(' ').unwrap_or((rest, ""));
    let number: u32 = digits.parse().ok().ok_or(Stop::Line)?;
    Ok(number.to_be_bytes().as_slice().to_vec(alloc)?)
}

/// How many bytes a record has.
fn length_of(bytes: &[u8]) -> u32 {
    u32::try_from(bytes.len()).unwrap_or(u32::MAX)
}

/// The number that four bytes are.
fn number_of(place: &[u8]) -> u32 {
    match place {
        [a, b, c, d] => u32::from_be_bytes([*a, *b, *c, *d]),
        _ => 0,
    }
}

/// The key of a record: its first bytes, so many.
pub fn key_in(bytes: &[u8], keys: usize) -> &[u8] {
    bytes.get(..keys).unwrap_or(bytes)
}

/// What is between the quotes of a line.
pub fn quoted(line: &str) -> &str {
    let (_, rest) = line.split_once("C'").unwrap_or(("", ""));
    let (text, _) = rest.split_once('\'').unwrap_or(("", ""));
    text
}
