//! The rules that a block of a part may break.
ghost use Rattle.std.specs.Prelude.{◌≡◌};
ghost use Rattle.vr_attach.specs.Damage.{rule_number};

/// A rule that a block of a part may break. They are this project's own.
#[derive(Clone, Copy, PartialEq, Eq)]
pub enum Rule {
    /// Each area that a head names is one of the volume's.
    AreaNumber,
    /// No area is reached twice.
    AreaTwice,
    /// The head is a sequence-set record.
    SequenceSet,
    /// The part and the place length are those of the catalog.
    PartNumber,
    /// The ranges follow one another up to the greatest place.
    Places,
    /// The block of an entry is a control interval.
    ControlInterval,
    /// It is no end of file.
    EndOfFile,
    /// It has records, each of them valid.
    Record,
    /// They ascend, and none is beyond its range unless the interval is busy.
    Order,
    /// A roster is spelled, and leads on only where its area is used whole.
    Roster,
    /// An interval of a relative part has slots of its length.
    Slots,
}

impl Rule {
    /// The number by which the rule is shown.
    pub fn number(self) -> u8
        ensures { result ≡ rule_number self }
    {
        match self {
            Rule::AreaNumber => 3,
            Rule::AreaTwice => 4,
            Rule::SequenceSet => 5,
            Rule::PartNumber => 6,
            Rule::Places => 7,
            Rule::ControlInterval => 8,
            Rule::EndOfFile => 9,
            Rule::Record => 10,
            Rule::Order => 11,
            Rule::Roster => 13,
            Rule::Slots => 14,
        }
    }
}
