//! A reader and a writer whose calls fail where a script says so.

use crate::stream_calls::TEXT;
use std::alloc::{AllocError, Global};
use std::io;
use std::io::{Error, ErrorKind, Read, Write};
use vr_outside::SteadySource;
use vr_types::Script;

/// A reader of the text.
#[derive(Drop)]
pub struct Reader {
    bytes: SteadySource,
    script: Script,
}

impl Reader {
    /// A reader that fails at the calls of these numbers.
    pub fn new(alloc: Global, failing: Vec<u64>) -> Result<Reader, AllocError> {
        let bytes = Vec::from_slice(alloc, TEXT.as_bytes())?;
        Ok(Reader {
            bytes: SteadySource::new(bytes),
            script: Script::new(failing),
        })
    }

    /// How many calls were made.
    pub fn calls(&self) -> u64 {
        self.script.made()
    }
}

impl Read for Reader {
    fn read(&mut self, buf: &mut [u8]) -> io::Result<usize> {
        if self.script.begin() {
            return Err(Error::from(ErrorKind::Interrupted));
        }
        let most = buf.len();
        Ok(self.bytes.hand_out(buf, most))
    }
}

/// A writer that takes at most a number of bytes at a call.
#[derive(Drop)]
pub struct Writer {
    bytes: Vec<u8>,
    most: usize,
    script: Script,
}

impl Writer {
    /// A writer that fails at the calls of these numbers.
    pub fn new(alloc: Global, most: usize, failing: Vec<u64>) -> Writer {
        Writer {
            bytes: Vec::new(alloc),
            most,
            script: Script::new(failing),
        }
    }

    /// How many calls were made.
    pub fn calls(&self) -> u64 {
        self.script.made()
    }

    /// The bytes that it took.
    pub fn taken(&self) -> &[u8] {
        self.bytes.as_slice()
    }
}

impl Write for Writer {
    fn write(&mut self, buf: &[u8]) -> io::Result<usize> {
        if self.script.begin() {
            return Err(Error::from(ErrorKind::BrokenPipe));
        }
        let n = self.most.min(buf.len());
        self.bytes.extend_from_slice(&buf[..n])?;
        Ok(n)
    }

    fn flush(&mut self) -> io::Result<()> {
        Ok(())
    }
}
