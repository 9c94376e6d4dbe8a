//! Where a search for the next place begins.
use vr_types::Place;

/// Where a search for the next place begins.
#[derive(Clone, Copy)]
pub enum Whence<'a> {
    /// At the first place.
    Start,
    /// At this place or past it.
    At(&'a Place),
    /// Past this place.
    After(&'a Place),
    /// Past the place of these bytes, as where a range that is lent begins.
    Above(&'a [u8]),
}
