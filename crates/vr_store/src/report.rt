//! What a store reports of its parts, its log, its before-images and its areas, without a block.
ghost use Rattle.std.specs.Prelude.{◌≡◌, ◌≢◌, ◌==◌, IsTrue, MatchOption, [], false, is_some};
ghost use Rattle.std.specs.Prelude.{length, option_map};
ghost use Rattle.std.specs.List.{list_any};
ghost use Rattle.std.specs.Option.{option_and_then, option_map_or};
ghost use Rattle.vr_types.specs.Space.{free_count, least_free};
ghost use Rattle.vr_space.specs.Part.{address_of};
ghost use Rattle.vr_log.specs.Live.{is_in, live_in, used_by};
ghost use Rattle.vr_undo.specs.Others.{IsLeastAllowed, NoneAllowed, others_in};
ghost use Rattle.vr_undo.specs.Records.{is_logged_in, logged_of};
ghost use Rattle.vr_store.specs.Store.{PartNow, blocks_of, part_among};

use crate::changed::is_none;
use crate::parts::{Laid, index_of};
use crate::store::Store;
use vr_space::{Part, Whence};
use vr_types::{AreaNo, PartNo, Place, Unit};

/// Whether one of the parts has this number.
fn is_laid<P>(parts: &[Laid<P>], number: PartNo) -> bool
    ensures { result ≡ list_any (λ laid. laid.number.0 == number.0) parts.now }
{
    parts.iter().any(|laid| laid.number.0 == number.0)
}

impl<P: Part> Store<P> {
    /// Whether a part of this number is laid.
    pub fn has_part(&self, number: PartNo) -> bool
        ensures { result ≡ is_some (part_among self.now.parts number.0) }
    {
        is_laid(&self.parts, number)
    }

    /// How many areas the chain of a part has, as the part keeps them in memory; 0 where no part of
    /// this number is laid. An area that a split under way claimed is in no chain yet.
    pub fn areas_of(&self, number: PartNo) -> u32
        ensures { result ≡ option_map_or (λ (part : PartNow). length part.known.areas)
            (part_among self.now.parts number.0) 0 }
    {
        match index_of(&self.parts, number) {
            Some(at) => self.parts[at].part.areas(),
            None => 0,
        }
    }

    /// The address that the next record of this length gets in a part, in bytes from its start (DFSMS
    /// Using Data Sets, relative byte address). None of a part that isn't entry-sequenced, and where
    /// no part of this number is laid. It reads nothing.
    pub fn address(&self, number: PartNo, length: u32) -> Option<u32>
        ensures { result ≡ option_and_then
            (λ (part : PartNow). address_of part.shape part.known length)
            (part_among self.now.parts number.0) }
    {
        match index_of(&self.parts, number) {
            Some(at) => self.parts[at].part.address(length),
            None => None,
        }
    }

    /// The least area that no part has; None exactly where each has one.
    pub fn least_free(&self) -> Option<AreaNo>
        ensures { option_map (λ area. area.0) result ≡ least_free self.now.space }
    {
        self.space.least_free()
    }

    /// How many areas no part has.
    pub fn free_areas(&self) -> u32
        ensures { result ≡ free_count self.now.space }
    {
        self.space.free()
    }

    /// The bytes of the log in use.
    pub fn used(&self) -> u64
        requires { self.now.log.broken ≡ false }
        ensures { result ≡ used_by self.now.log.records }
    {
        self.log.used()
    }

    /// The generation of the log.
    pub fn generation(&self) -> u64
        ensures { result ≡ self.now.log.generation }
    {
        self.log.generation()
    }

    /// Whether a unit is live: the log has records of it.
    pub fn is_live(&self, unit: Unit) -> bool
        requires { self.now.log.broken ≡ false }
        ensures { result ≡ is_in unit (live_in self.now.log.records) }
    {
        self.log.is_live(unit)
    }

    /// Whether no unit is live: the log has no records.
    pub fn is_idle(&self) -> bool
        requires { self.now.log.broken ≡ false }
        ensures idle { IsTrue result → live_in self.now.log.records ≡ [] }
        ensures live { result ≡ false → live_in self.now.log.records ≢ [] }
    {
        self.log.live() == 0
    }

    /// Whether the log has a before-image of a place for a unit.
    pub fn has_logged(&self, unit: Unit, part: PartNo, place: &Place) -> bool
        ensures { result ≡ is_logged_in unit part.0 place.now (logged_of self.now.undo) }
    {
        self.undo.is_logged(unit, part, place)
    }

    /// Whether none of the blocks that a unit changed is left to be forced.
    pub fn is_forced(&self, unit: Unit) -> bool
        ensures forced { IsTrue result → blocks_of unit self.now.changed ≡ [] }
        ensures left { result ≡ false → blocks_of unit self.now.changed ≢ [] }
    {
        is_none(&self.changed, unit)
    }

    /// The least place that `from` allows for which another unit keeps a before-image of a record:
    /// what stood there may come back.
    pub fn next_other(&self, unit: Unit, part: PartNo, from: Whence<'_>) -> Option<&Place>
        ensures { MatchOption result
            (NoneAllowed from.entry (others_in unit part.0 self.now.undo))
            (λ place. IsLeastAllowed from.entry (others_in unit part.0 self.now.undo) place.now) }
    {
        self.undo.next_other(unit, part, from)
    }
}
