//! Calls of a source and a sink, and what they answered.

use vr_case_table::Answers;
use vr_outside::{Sink, Source, write_whole};
use vr_types::Failed;

/// The bytes of each source, and those that each sink is handed.
pub const TEXT: &str = "GET F KEY=C'1'";

/// The most reads of a source that comes to its end.
pub const READ_LIMIT: usize = 40;

/// Reads with a buffer of four bytes, at most so many times, through failures, until the end, and
/// writes what each read answered.
pub fn read_all<S: Source>(source: &mut S, most: usize, out: &mut Answers) {
    for _ in 0..most {
        let mut buffer = [0u8; 4];
        match source.read(&mut buffer) {
            Ok(0) => return,
            Ok(n) => say_taken(&buffer[..n], out),
            Err(Failed) => out.say("|failed"),
        }
    }
}

/// Writes the whole text to the sink, and whether it was taken.
pub fn write_all<K: Sink>(sink: &mut K, out: &mut Answers) {
    match write_whole(sink, TEXT.as_bytes()) {
        Ok(()) => out.say("whole"),
        Err(Failed) => out.say("failed"),
    }
}

/// Writes bytes, each as the character that it is in ASCII, after a bar.
pub fn say_taken(bytes: &[u8], out: &mut Answers) {
    out.say("|");
    for byte in bytes {
        out.say_char(char::from(*byte));
    }
}
