//! What a stage of a part leaves to be entered.
ghost use Rattle.std.specs.Prelude.{◌≡◌, ◌≢◌, ◌⊎◌, ◌<◌, ◌-◌, ◌^◌, IsTrue, List, Option, false, true};
ghost use Rattle.std.specs.Prelude.{ℕ};
ghost use Rattle.std.specs.Option.{option_map};
ghost use Rattle.vr_types.specs.Space.{free_count, least_free};
ghost use Rattle.vr_types.specs.declared.unit.PartNo as part_numbers;
ghost use Rattle.vr_types.specs.declared.unit.StageKind.TheVariants.{CiSwitch};
ghost use Rattle.vr_space.specs.Part.{IsClaimed};
ghost use Rattle.vr_history.specs.Merged.{last_stamp};
ghost use Rattle.vr_history.specs.State.{State};
ghost use Rattle.vr_event.specs.Staging.{IsStaged, IsTakenBy, stage_entered};
ghost use Rattle.vr_event.specs.Volume.{IsHeld, IsWhole};

use crate::volume::Volume;
use vr_space::Part;
use vr_types::{AreaNo, Blocks, PartNo, StageKind, Unit};

/// The area that a stage of a part took: the least that was free before it, where fewer are free now.
pub(crate) fn area_taken(least: Option<AreaNo>, free: u32, now: u32) -> Option<AreaNo>
    ensures { (part : part_numbers.PartNo) (old new : List (Option part_numbers.PartNo))
        → option_map (λ area. area.0) least ≡ least_free old → free ≡ free_count old
        → now ≡ free_count new → (new ≡ old) ⊎ IsClaimed part old new
        → IsTakenBy part old new result }
{
    if now < free { least } else { None }
}

/// Whether a stage splits an interval in two.
pub(crate) fn splits_interval(kind: StageKind) -> bool
    ensures yes { IsTrue result → kind ≡ CiSwitch }
    ensures no { result ≡ false → kind ≢ CiSwitch }
{
    matches!(kind, StageKind::CiSwitch)
}

impl<B: Blocks, P: Part> Volume<B, P> {
    /// Enters what a stage of a part left: that it took an area, or that an interval was split in two
    /// where it was, for the request on this line. It takes no memory.
    pub(crate) fn enter_stage(
        &mut self,
        unit: Unit,
        line: u32,
        part: PartNo,
        split: bool,
        taken: Option<AreaNo>,
        after: u64,
    )
        requires room { 0 < self.old.file.room }
        requires last { last_stamp 0 self.old.file.entries < 2 ^ 64 - 2 }
        requires after { after < 2 ^ 64 - 2 }
        ensures leaves { self.new.file ≡ stage_entered after unit line part split taken
            self.old.file }
        ensures held { IsTrue B.tells → (opening : State)
            → (areas : List (Option part_numbers.PartNo))
            → IsStaged B.seen opening part areas taken self.old → IsHeld B.seen opening self.new }
        ensures whole { IsWhole B.seen self.old → IsWhole B.seen self.new }
        ensures blocks { self.new.blocks ≡ self.old.blocks }
        ensures store { self.new.store ≡ self.old.store }
        ensures volume { self.new.number ≡ self.old.number }
    {
        match taken {
            Some(area) => self.file.claim(unit, line, part, area, after),
            None if split => self.file.split(unit, line, part, after),
            None => {}
        }
    }
}
