//! The live units of a log.
ghost use Rattle.std.specs.Prelude.{◌≡◌, ◌<◌, [], ◌∷◌, ◌++◌, length, IfOk, IfSome, IfNone};
ghost use Rattle.std.specs.List.{remove};
ghost use Rattle.vr_log.specs.Live.{is_in, without};

use std::alloc::Global;
use std::marker::Model;
use vr_types::{OutOfMemory, Unit};

/// The units of recovery that are live, the first of them first, in room that was reserved.
#[derive(Drop)]
pub(crate) struct Live {
    units: Vec<Unit>,
}

impl Model for Live {
    ghost use Rattle.vr_log.specs.LiveUnits.{LiveUnits, live_units_of};

    ghost Value = { LiveUnits };

    ghost view = { λ live. live_units_of live.units };
}

impl Live {
    /// None yet, with room for that many.
    pub(crate) fn new(alloc: Global, room: usize) -> Result<Live, OutOfMemory>
        ensures { IfOk result (λ live. live ≡ record { units = []; room = room }) }
    {
        let units = Vec::with_capacity(alloc, room)?;
        Ok(Live { units })
    }

    /// Forgets them all. The room stays.
    pub(crate) fn clear(&mut self)
        ensures { self.new ≡ record self.old { units = [] } }
    {
        self.units.clear();
    }

    /// How many.
    pub(crate) fn len(&self) -> usize
        ensures { result ≡ length self.now.units }
    {
        self.units.len()
    }

    /// Whether the unit is live.
    pub(crate) fn has(&self, unit: Unit) -> bool
        ensures { result ≡ is_in unit self.now.units }
    {
        self.units.iter().any(|other| unit == *other)
    }

    /// Adds a unit at the end.
    pub(crate) fn add(&mut self, unit: Unit)
        requires { length self.old.units < self.old.room }
        ensures units { self.new.units ≡ self.old.units ++ unit ∷ [] }
        ensures room { self.new.room ≡ self.old.room }
    {
        self.units.push_reserved(unit);
    }

    /// Removes a unit, where it is there.
    pub(crate) fn remove(&mut self, unit: Unit)
        ensures units { self.new.units ≡ without unit self.old.units }
        ensures room { self.new.room ≡ self.old.room }
    {
        if let Some(place) = find(&self.units, unit) {
            self.units.remove(place);
        }
    }
}

/// The first place at which the unit is.
fn find(units: &[Unit], unit: Unit) -> Option<usize>
    ensures within { IfSome result (λ place. place < length units.now) }
    ensures found { IfSome result (λ place. remove units.now place ≡ without unit units.now) }
    ensures none { IfNone result (without unit units.now ≡ units.now) }
{
    for (i, other) in units.iter().enumerate() {
        if unit == *other {
            return Some(i);
        }
    }
    None
}
