//! The lines of a part of a job text.
ghost use Rattle.std.specs.Prelude.{◌≡◌, ◌<◌, List, [], ◌∷◌, ◌++◌, length, OnOk, OnErr};
ghost use Rattle.vr_text.specs.Lines.{line_at};

use std::alloc::Global;
use std::marker::Model;
use vr_types::OutOfMemory;

/// A line: its number in the job text, from 1, and its bytes, which stay in the text.
#[derive(Clone, Copy)]
struct NumberedLine<'a> {
    number: u32,
    text: &'a [u8],
}

/// Lines of a job text in order, each with its number. The bytes are borrowed.
#[derive(Drop)]
pub struct Lines<'a> {
    lines: Vec<NumberedLine<'a>>,
}

impl<'a> Model for Lines<'a> {
    ghost use Rattle.std.specs.Prelude.{List, map};
    ghost use Rattle.vr_text.specs.Lines.{Line};

    ghost Value = { List Line };

    ghost use Rattle.vr_text.specs.LinesHeld.{line_of};

    ghost view = { λ lines. map line_of lines.lines.items };
}

impl<'a> Lines<'a> {
    /// No line, which takes no memory.
    pub fn new(alloc: Global) -> Lines<'a>
        ensures { result ≡ [] }
    {
        Lines {
            lines: Vec::new(alloc),
        }
    }

    /// Adds a line at the end. Where memory runs out, nothing changes.
    pub fn push(&mut self, number: u32, text: &'a [u8]) -> Result<(), OutOfMemory>
        ensures ok { OnOk result
            (self.new ≡ self.old ++ record { number = number; text = text.now } ∷ []) }
        ensures err { OnErr result (self.new ≡ self.old) }
    {
        self.lines.push(NumberedLine { number, text })?;
        Ok(())
    }

    /// How many lines.
    pub fn len(&self) -> usize
        ensures { result ≡ length self.now }
    {
        self.lines.len()
    }

    /// The number of line `i` in the job text.
    pub fn number(&self, i: usize) -> u32
        requires { i < length self.now }
        ensures { result ≡ (line_at self.now i).number }
    {
        self.lines[i].number
    }

    /// The bytes of line `i`.
    pub fn text(&self, i: usize) -> &'a [u8]
        requires { i < length self.now }
        ensures { result.now ≡ (line_at self.now i).text }
    {
        self.lines[i].text
    }
}
