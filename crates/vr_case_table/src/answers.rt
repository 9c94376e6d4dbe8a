//! What answers are written to.

use crate::stop::Answer;
use std::alloc::Global;
use std::fmt::Write;

/// The answer to a line. It remembers that memory ran out, so that nothing that writes has an exit;
/// what is asked for it then is out of memory.
#[derive(Drop)]
pub struct Answers {
    alloc: Global,
    text: String,
    lacks: bool,
}

impl Answers {
    /// No answer yet.
    pub fn new(alloc: Global) -> Answers {
        Answers {
            alloc,
            text: String::new(alloc),
            lacks: false,
        }
    }

    /// Where memory comes from.
    pub fn alloc(&self) -> Global {
        self.alloc
    }

    /// Whether memory ran out.
    pub fn lacks_memory(&self) -> bool {
        self.lacks
    }

    /// Notes that memory ran out.
    pub fn note_no_memory(&mut self) {
        self.lacks = true;
    }

    /// What was written.
    pub fn text(&self) -> &str {
        self.text.as_str()
    }

    /// Whether nothing was written.
    pub fn is_empty(&self) -> bool {
        self.text.is_empty()
    }

    /// Leaves nothing written.
    pub fn clear(&mut self) {
        self.text.clear();
    }

    /// Writes a text.
    pub fn say(&mut self, text: &str) {
        if self.text.push_str(text).is_err() {
            self.lacks = true;
        }
    }

    /// Writes `ok`, which is the answer of a line that only does something.
    pub fn ok(&mut self) -> Answer {
        self.say("ok");
        Ok(())
    }

    /// Writes a character.
    pub fn say_char(&mut self, one: char) {
        if self.text.push(one).is_err() {
            self.lacks = true;
        }
    }

    /// Writes a text and a number.
    pub fn say_number(&mut self, text: &str, number: u64) {
        self.say(text);
        let out = &mut self.text;
        if write!(out, "{number}").is_err() {
            self.lacks = true;
        }
    }

    /// Writes bytes as hexadecimal digits.
    pub fn say_digits(&mut self, bytes: &[u8]) {
        match hex::encode_upper(self.alloc, bytes) {
            Ok(digits) => self.say(digits.as_str()),
            Err(_) => self.lacks = true,
        }
    }

    /// Writes bytes as text, or as digits where they are none.
    pub fn say_bytes(&mut self, bytes: &[u8]) {
        match str::from_utf8(bytes) {
            Ok(text) => self.say(text),
            Err(_) => self.say_digits(bytes),
        }
    }

    /// Writes a blank before what isn't the first.
    pub fn gap(&mut self) {
        if !self.text.is_empty() {
            self.say(" ");
        }
    }

    /// Writes what a plain program answers, where it is something else.
    pub fn say_plain(&mut self, plain: &Answers) {
        if self.text.as_str() != plain.text.as_str() {
            self.say(", plainly ");
            self.say(plain.text.as_str());
        }
        self.lacks = self.lacks || plain.lacks;
    }
}
