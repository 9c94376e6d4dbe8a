//! Alternate indexes as far as their pairs go, and changes of these.

use vr_types::{Items, PartNo, Place};

/// An alternate index: its part, KEYS(length offset) in bytes of the base record, and UNIQUEKEY.
#[derive(Clone, Copy, PartialEq, Eq)]
pub struct AltDef {
    pub part: PartNo,
    pub length: u16,
    pub offset: u16,
    pub unique: bool,
}

/// Alternate indexes over one base, by their part numbers.
pub type AltList = Items<AltDef>;

/// A pair that an alternate index gets or loses: its part, and the place of the pair there.
#[derive(Drop)]
pub struct PairChange {
    pub part: PartNo,
    pub place: Place,
    pub added: bool,
}

/// Changes of pairs, in order.
pub type PairChanges = Items<PairChange>;
