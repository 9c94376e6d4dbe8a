//! The splits of a part: of a control interval in one of its areas, or of an area.
ghost use Rattle.std.specs.Prelude.{◌≡◌, ◌⊎◌, ◌<◌, IfOk, None};
ghost use Rattle.vr_types.specs.Geometry.{area_count};
ghost use Rattle.vr_space.specs.Areas.{KeyedChain, area_of};
ghost use Rattle.vr_space.specs.Split.{move_stage, split_in, stage_under};
ghost use Rattle.vr_keyed.specs.Owned.{Splitting};
ghost use Rattle.vr_keyed.specs.Splits.{IsSplit};

use crate::room::UnderWay;
use std::alloc::Global;
use std::marker::Model;
use vr_casplit::{CaSplit, ca_split};
use vr_space::KeyedLayout;
use vr_split::{CiSplit, ci_split};
use vr_types::{OutOfMemory, StageKind};

/// The splits of a part, of which at most one is under way: of a control interval in one of its
/// areas, or of an area.
#[derive(Drop)]
pub(crate) struct Splits {
    pub(crate) interval: CiSplit,
    /// The area that the split of an interval is in, or the last one was.
    pub(crate) area: u32,
    pub(crate) whole: CaSplit,
}

impl Model for Splits {
    ghost use Rattle.std.specs.Prelude.{◌≡◌, ◌⊎◌, ◌<◌, None};
    ghost use Rattle.vr_types.specs.Geometry.{area_count};
    ghost use Rattle.vr_space.specs.Areas.{area_of};
    ghost use Rattle.vr_space.specs.Moves.{IsPastClaim};
    ghost use Rattle.vr_keyed.specs.Advance.{IsLater};
    ghost use Rattle.vr_keyed.specs.Owned.{Splitting, split_at};

    ghost Value = { Splitting };

    ghost view = { λ splits. record {
      part = splits.whole.part;
      split = split_at splits.area splits.interval.split;
      move = splits.whole.move;
    } };

    ghost invariant = { λ splits. (splits.area < area_count splits.whole.part.geometry)
        × (splits.interval.part ≡ area_of splits.whole.part splits.area)
        × IsLater splits.interval.split
        × IsPastClaim splits.whole.move
        × ((splits.interval.split ≡ None) ⊎ (splits.whole.move ≡ None)) };
}

/// Splits of a part, none of which is under way. It takes all the memory that they need.
pub(crate) fn no_splits(alloc: Global, layout: &KeyedLayout) -> Result<Splits, OutOfMemory>
    ensures { IfOk result (λ splits. splits
        ≡ record { part = layout.now; split = None; move = None }) }
{
    let area = layout.first;
    let interval = ci_split(alloc, layout.area(area))?;
    let whole = ca_split(alloc, layout.copy())?;
    Ok(Splits {
        interval,
        area,
        whole,
    })
}

impl Splits {
    /// The stage that is next of the split under way, in whichever area.
    pub(crate) fn stage(&self) -> Option<StageKind>
        ensures { result ≡ stage_under self.now.split self.now.move }
    {
        match self.interval.next_stage() {
            Some(stage) => Some(stage),
            None => self.whole.next_stage(),
        }
    }

    /// The stage that is next of a split of this area: all of its places wait for it.
    pub(crate) fn stage_of(&self, area: u32) -> Option<StageKind>
        ensures { result ≡ move_stage self.now.move area }
    {
        let stage = self.whole.next_stage()?;
        let (split, _) = self.whole.areas();
        if split == area { Some(stage) } else { None }
    }

    /// The split of an interval that is under way in this area.
    pub(crate) fn under_way_in(&self, area: u32) -> Option<UnderWay>
        ensures { IsSplit (split_in self.now.split area) result }
    {
        let stage = self.interval.next_stage()?;
        if self.area != area {
            return None;
        }
        let (old, into) = self.interval.intervals();
        Some(UnderWay { old, into, stage })
    }
}
