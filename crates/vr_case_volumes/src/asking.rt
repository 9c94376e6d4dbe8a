//! The words and the source by which a job is run.

use crate::answers::{Answer, Stop};
use std::alloc::Global;
use vr_outside::MemorySource;
use vr_types::Words;

/// Adds lines to a text.
pub fn add_lines(text: &mut String, lines: &[&str]) -> Answer {
    for line in lines {
        text.push_str(line)?;
        text.push('\n')?;
    }
    Ok(())
}

/// The words by which a job is run on the volumes of a folder.
pub fn run_words(alloc: Global) -> Result<Words, Stop> {
    let mut words = Words::new(alloc);
    words.push("run")?;
    words.push("JOB")?;
    words.push("DIR")?;
    Ok(words)
}

/// A source of this text.
pub fn source(alloc: Global, text: &str) -> Result<Box<MemorySource>, Stop> {
    let bytes = text.as_bytes().to_vec(alloc)?;
    Ok(Box::new(alloc, MemorySource::new(bytes, Vec::new(alloc)))?)
}
