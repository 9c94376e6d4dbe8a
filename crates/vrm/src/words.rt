//! The words that the program was called with.

use std::env;
use std::io::ErrorKind;
use std::rt::Env;
use vr_types::{OutOfMemory, Words};

/// The words after the program's name. Where one isn't UTF-8 there is none, which is no command.
pub fn words_of<R: Env + AllocGlobal>(rt: &R) -> Result<Words, OutOfMemory> {
    let mut words = Words::new(rt.alloc());
    let arguments = match env::args(rt) {
        Ok(arguments) => arguments,
        Err(error) if error.kind() == ErrorKind::OutOfMemory => return Err(OutOfMemory),
        Err(_) => return Ok(words),
    };
    for argument in arguments.skip(1) {
        words.push(argument.as_str())?;
    }
    Ok(words)
}
