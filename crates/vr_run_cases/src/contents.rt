//! The records of a file as a plain, slow program keeps them: a list in the order of their places.
//! It shares nothing with the code that runs jobs.

use std::alloc::{AllocError, Global};

/// A record with its place.
#[derive(Drop)]
struct Record {
    place: Vec<u8>,
    bytes: Vec<u8>,
}

/// The records of a file, in the order of their places.
#[derive(Drop)]
pub struct Contents {
    records: Vec<Record>,
}

impl Contents {
    /// No record.
    pub fn new(alloc: Global) -> Contents {
        Contents {
            records: Vec::new(alloc),
        }
    }

    /// The bytes of the record at a place.
    pub fn get(&self, place: &[u8]) -> Option<&[u8]> {
        for record in &self.records {
            if record.place.as_slice() == place {
                return Some(record.bytes.as_slice());
            }
        }
        None
    }

    /// Whether a record is at a place.
    pub fn has(&self, place: &[u8]) -> bool {
        self.get(place).is_some()
    }

    /// The last record with its place.
    pub fn last(&self) -> Option<(&[u8], &[u8])> {
        let record = self.records.last()?;
        Some((record.place.as_slice(), record.bytes.as_slice()))
    }

    /// How many records are at a place below this one.
    fn below(&self, place: &[u8]) -> usize {
        let mut count = 0;
        for (at, record) in self.records.iter().enumerate() {
            if record.place.as_slice() < place {
                count = at + 1;
            }
        }
        count
    }

    /// Adds a record where none is.
    pub fn add(&mut self, alloc: Global, place: &[u8], bytes: &[u8]) -> Result<(), AllocError> {
        let at = self.below(place).min(self.records.len());
        let record = Record {
            place: place.to_vec(alloc)?,
            bytes: bytes.to_vec(alloc)?,
        };
        self.records.insert(at, record)?;
        Ok(())
    }

    /// Takes the record at a place away.
    pub fn remove(&mut self, place: &[u8]) {
        let at = self.below(place);
        if at < self.records.len() && self.has(place) {
            self.records.remove(at);
        }
    }

    /// Makes the record at a place this one.
    pub fn set(&mut self, alloc: Global, place: &[u8], bytes: &[u8]) -> Result<(), AllocError> {
        self.remove(place);
        self.add(alloc, place, bytes)
    }

    /// The same records.
    pub fn copy(&self, alloc: Global) -> Result<Contents, AllocError> {
        let mut copy = Contents::new(alloc);
        match self.copy_into(alloc, &mut copy) {
            Ok(()) => Ok(copy),
            Err(no) => Err(no),
        }
    }

    fn copy_into(&self, alloc: Global, copy: &mut Contents) -> Result<(), AllocError> {
        for record in &self.records {
            copy.add(alloc, record.place.as_slice(), record.bytes.as_slice())?;
        }
        Ok(())
    }

    /// Whether these are the same records.
    pub fn is(&self, other: &Contents) -> bool {
        self.records.len() == other.records.len() && self.is_in(other)
    }

    /// Whether each record is one of the others.
    fn is_in(&self, other: &Contents) -> bool {
        self.records.iter().all(|record| other.get(record.place.as_slice())
            == Some(record.bytes.as_slice()))
    }
}
