//! The kinds of control intervals, and their sizes.

ghost use Rattle.std.specs.Prelude.{◌≡◌, ◌+◌, ◌-◌, ◌*◌, ◌/◌, ◌<◌, ◌≤◌};
ghost use Rattle.vr_ci_match.specs.Layout.{slot_length};

/// How a control interval of records spells them.
#[derive(Clone, Copy, PartialEq, Eq)]
pub enum Form {
    /// Records of any lengths; neighbouring live records of one length share a pair of RDFs.
    Plain,
    /// As many slots of `length` bytes as the block holds, each with an RDF of its own.
    Slots { length: u16 },
}

impl Form {
    /// The length of the slots, where the form has some.
    pub(crate) fn slot_length(self) -> usize
        ensures length { result ≡ slot_length self }
        ensures small { result < 65536 }
    {
        match self {
            Form::Plain => 0,
            Form::Slots { length } => usize::from(length),
        }
    }
}

/// Which part of a spanned record a segment is.
#[derive(Clone, Copy, Debug, PartialEq, Eq)]
pub enum Piece {
    First,
    Inner,
    Last,
}

/// What a control interval holds.
#[derive(Clone, Copy, PartialEq, Eq)]
pub enum Shape {
    /// Records, or slots.
    Records,
    /// One segment of a spanned record, and the record's update number.
    Segment { piece: Piece, number: u16 },
    /// The software end of file.
    EndOfFile,
}

/// How many slots of this length a block of this size has.
pub fn slots(size: usize, length: u16) -> usize
    ensures count { result ≡ (size - 4) / (length + 3) }
    ensures fits { result * (length + 3) ≤ size - 4 }
{
    size.saturating_sub(4) / (usize::from(length) + 3)
}
