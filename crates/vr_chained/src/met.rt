//! What is kept of the intervals of the places that were met.
ghost use Rattle.std.specs.Prelude.{◌≡◌, ◌<◌, ◌≤◌, IsTrue, All, false, find, length, take, vec_len};
ghost use Rattle.std.specs.Option.{option_copied};

use vr_types::PlaceBuffer;

/// The interval of a place, as it was met: its block, and what that had. Where the interval
/// isn't in the chain, the place alone counts.
#[derive(Drop)]
pub(crate) struct MetBlock {
    pub(crate) place: PlaceBuffer,
    pub(crate) number: u32,
    pub(crate) bytes: Vec<u8>,
}

/// Slots for the intervals of places, and how many of them have one that was met.
#[derive(Drop)]
pub(crate) struct Mets {
    pub(crate) slots: Vec<MetBlock>,
    pub(crate) filled: usize,
    ghost some: { 0 < vec_len slots },
    ghost few: { filled ≤ vec_len slots },
}

impl Mets {
    ghost use Rattle.vr_types.specs.Image.{Image};
    ghost use Rattle.vr_space.specs.Rosters.{Numbered};
    ghost use Rattle.vr_space.specs.Numbered.{IsIntervalMet};
    ghost use Rattle.vr_chained.specs.Met.{AreMetsOf, HasMetPlace, is_at, met_in, mets_in};

    /// What is kept of the interval of a place, if it was met.
    fn find(&self, place: &[u8]) -> Option<&MetBlock>
        ensures { option_copied result
            ≡ find (is_at place.now) (take self.now.filled self.now.slots.items) }
    {
        self.slots[..self.filled]
            .iter()
            .find(|met| met.place.as_slice() == place)
    }

    /// Whether a place was met.
    pub(crate) fn has(&self, place: &[u8]) -> bool
        ensures some { IsTrue result → HasMetPlace (mets_in self.now) place.now }
        ensures none { result ≡ false → HasMetPlace (mets_in self.now) place.now → ⊥ }
    {
        self.find(place).is_some()
    }

    /// What is kept of the interval of a place that was met.
    pub(crate) fn met_at(&self, place: &[u8]) -> &MetBlock
        requires { HasMetPlace (mets_in self.now) place.now }
        ensures place { result.now.place.place ≡ place.now }
        ensures met { (part : Numbered) (image : Image)
            → All (IsIntervalMet part image) (mets_in self.now)
            → IsIntervalMet part image (met_in result.now) }
    {
        let Some(met) = self.find(place) else {
            unreachable!("it was met")
        };
        met
    }

    /// The bytes of any slot.
    pub(crate) fn sample(&self) -> &[u8]
        ensures { (part : Numbered) → AreMetsOf part self.now
            → length result.now ≡ part.geometry.size }
    {
        self.slots[0].bytes.as_slice()
    }
}
