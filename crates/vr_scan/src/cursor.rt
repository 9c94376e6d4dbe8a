//! The characters that are left of a text, with two of them at hand.
ghost use Rattle.std.specs.Prelude.{◌≡◌, drop, slice_get};
ghost use Rattle.vr_scan.specs.Mark.{marks_of};

use crate::mark::Mark;
use crate::reader::Reader;
use std::marker::Model;
use vr_text::Lines;

/// What is left of a text.
#[derive(Drop)]
pub(crate) struct Cursor<'a> {
    first: Option<Mark>,
    second: Option<Mark>,
    reader: Reader<'a>,
}

impl<'a> Model for Cursor<'a> {
    ghost use Rattle.std.specs.Prelude.{List};
    ghost use Rattle.vr_scan.specs.declared.mark.Mark.{Mark};

    ghost Value = { List Mark };

    ghost use Rattle.std.specs.Prelude.{◌≡◌, [], ◌++◌, None, option_to_list};
    ghost use Rattle.vr_scan.specs.MarksLeft.{marks_left};

    ghost view = { λ cursor. option_to_list cursor.first
        ++ (option_to_list cursor.second ++ marks_left cursor.reader) };

    ghost invariant = { λ cursor. (cursor.first ≡ None → cursor.second ≡ None)
        × (cursor.second ≡ None → marks_left cursor.reader ≡ []) };
}

impl<'a> Cursor<'a> {
    /// All of these lines.
    pub(crate) fn new(lines: &'a Lines<'a>) -> Cursor<'a>
        ensures { result ≡ marks_of lines.now }
    {
        let mut reader = Reader::new(lines);
        let first = reader.next();
        let second = reader.next();
        Cursor {
            first,
            second,
            reader,
        }
    }

    /// The first mark.
    pub(crate) fn first(&self) -> Option<Mark>
        ensures { result ≡ slice_get self.now 0 }
    {
        self.first
    }

    /// The second mark.
    pub(crate) fn second(&self) -> Option<Mark>
        ensures { result ≡ slice_get self.now 1 }
    {
        self.second
    }

    /// Passes the first mark.
    pub(crate) fn advance(&mut self)
        ensures { self.new ≡ drop 1 self.old }
    {
        self.first = self.second;
        self.second = self.reader.next();
    }
}
