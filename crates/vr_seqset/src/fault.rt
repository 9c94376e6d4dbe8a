//! Why a block is not what it is read as.
ghost use Rattle.std.specs.Prelude.{◌≡◌};

/// The first rule that a block breaks. The rules are tried in this order, whichever byte is the
/// first that is wrong.
#[derive(Clone, Copy, PartialEq, Eq)]
pub enum SeqFault {
    /// Byte 0 is not `S`, or not `R` in a roster.
    Kind = 1,
    /// The block's size is not allowed, places have no byte, there is no entry, an entry has no
    /// interval, or the entries pass the end of the block. In a roster more intervals are used than
    /// there are.
    Lengths = 2,
    /// An interval number is not below that of the intervals used in an area, or comes twice.
    Intervals = 3,
    /// A high place is not above the one before it, or the first not above the low place of a
    /// record that is not the first of its chain.
    Places = 4,
    /// A byte without a name is not zero, the flag is neither 0 nor 1, the first of a chain has a
    /// low place other than zeros, or another record names an index.
    Zeros = 5,
}

impl SeqFault {
    ghost use Rattle.vr_seqset.specs.Faults.{fault_number};

    /// 1 to 5, in the order in which the rules are tried.
    pub fn number(self) -> u8
        ensures { result ≡ fault_number self }
    {
        self as u8
    }
}
