//! Units of recovery, and the small words of requests, locks and stages.

/// A unit of recovery: the number-th of a deck on one volume. Numbers begin at 1 and rise after
/// each COMMIT or BACKOUT that was answered 0. Deck 0 is that of the utilities.
#[derive(Clone, Copy, Debug, PartialEq, Eq, Hash)]
pub struct Unit {
    pub deck: u32,
    pub number: u32,
}

/// The number of a part of a volume: a cluster, an alternate index or a path. Part 0 is the
/// catalog.
#[derive(Clone, Copy, Debug, PartialEq, Eq, PartialOrd, Ord)]
pub struct PartNo(pub u32);

/// The number of an area of a volume, from 0.
#[derive(Clone, Copy, Debug, PartialEq, Eq, PartialOrd, Ord)]
pub struct AreaNo(pub u32);

/// How a lock is held.
#[derive(Clone, Copy, Debug, PartialEq, Eq)]
pub enum Mode {
    Shared,
    Exclusive,
}

/// The read integrity of a request: no read integrity, consistent read, or consistent read
/// explicit.
#[derive(Clone, Copy, Debug, PartialEq, Eq)]
pub enum Integrity {
    Nri,
    Cr,
    Cre,
}

/// The kind of a cluster: key-sequenced, entry-sequenced or relative.
#[derive(Clone, Copy, Debug, PartialEq, Eq)]
pub enum Kind {
    Keyed,
    Entry,
    Relative,
}

/// A stage of a request that takes several events: those of a split of a control interval, of a
/// split of a control area, the extension of a data set, an undo, and a force.
#[derive(Clone, Copy, Debug, PartialEq, Eq)]
pub enum StageKind {
    CiCopy,
    CiSwitch,
    CiClean,
    CaClaim,
    CaCopy,
    CaLink,
    CaSwitch,
    Post,
    Extend,
    Undo,
    Force,
}
