//! What a part answers to a record that wants room.
use vr_types::StageKind;

/// Whether a record has room at its place.
#[derive(Clone, Copy, PartialEq, Eq)]
pub enum Room {
    /// It may be set.
    Ready,
    /// This stage comes first.
    Stage(StageKind),
    /// The place needs more areas than are free; or none, where an entry-sequenced part has its
    /// interval already, and a record of this length may not stand there.
    NoSpace { need: u64, free: u32 },
}
