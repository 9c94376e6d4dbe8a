//! The contract of parts that can be made anew.
ghost use Rattle.std.specs.Prelude.{◌≡◌, ◌≢◌, ◌<◌, ℕ, List, [], ◌∷◌, Option, None, Some, IsTrue};
ghost use Rattle.std.specs.Prelude.{IfErr, IfOk, length, slice_index_or};
ghost use Rattle.vr_types.specs.Content.{Item};
ghost use Rattle.vr_types.specs.Geometry.{IsAllowed, area_count};
ghost use Rattle.vr_types.specs.Image.{Image};
ghost use Rattle.vr_types.specs.Regions.{Touches};
ghost use Rattle.vr_types.specs.declared.fault.DeviceFault.TheVariants.{Read};
ghost use Rattle.vr_space.specs.Part.{HasKeptRoom, IsAtRest, IsOn, Knows, MayHold, OwnsChain};
ghost use Rattle.vr_space.specs.Part.{OwnsClaimed, held_by, item_of, owned_count};
ghost use Rattle.vr_attach.specs.Laid.{shape_by_kind};
ghost use Rattle.vr_attach.specs.Owning.{owner_of};
ghost use Rattle.vr_start.specs.Cause.{HasStartCause};
ghost use Rattle.vr_start.specs.Startable.{IsStartable};
ghost use Rattle.vr_start.specs.declared.no.StartNo.TheVariants.{Fault};

use crate::no::StartNo;
use std::alloc::Global;
use vr_catalog::Definition;
use vr_space::Part;
use vr_types::{Blocks, Geometry, PartNo, Space};

/// Parts that can be made anew, as DEFINE CLUSTER of Access Method Services Commands makes the data
/// set that it defines: without records.
pub trait Start: Part {
    /// Makes a part without records in an area that it owns already: writes what such a part has of
    /// it, forces that, and attaches the part, which reads nothing. `space` has who owns each area
    /// of the volume. `Memory`: there is none for the part's buffers. `Fault` is the device's, of a
    /// write. After either, blocks of that area may have new bytes, and no other block has.
    fn start<B: Blocks>(
        alloc: Global,
        blocks: &mut B,
        geometry: &Geometry,
        part: PartNo,
        area: u32,
        definition: &Definition,
        space: &Space,
    ) -> Result<Self, StartNo>
        requires allowed { IsAllowed geometry.now }
        requires count { (B.seen blocks.old).count ≡ geometry.now.blocks }
        requires size { (B.seen blocks.old).size ≡ geometry.now.size }
        requires area { area < area_count geometry.now }
        requires sizes { IsStartable geometry.now definition.now }
        requires areas { length space.now ≡ area_count geometry.now }
        requires first { slice_index_or space.now area None ≡ Some part }
        requires alone { owned_count part space.now ≡ 1 }
        ensures shape { IfOk result (λ it. shape_by_kind geometry.now part.0 area definition.now
            definition.now.kind ≡ Some (Self.shape it)) }
        ensures on { IfOk result (λ it. IsOn (Self.shape it) (B.seen blocks.new)) }
        ensures rests { IsTrue B.tells → IfOk result (λ it.
            IsAtRest (Self.shape it) (owner_of geometry.now space.now) (B.seen blocks.new)) }
        ensures claimed { IfOk result (λ it.
            OwnsClaimed (Self.shape it) (owner_of geometry.now space.now) (Self.known it)) }
        ensures room { IsTrue B.tells → IfOk result (λ it.
            HasKeptRoom (Self.shape it) [] (B.seen blocks.new)) }
        ensures knows { IsTrue B.tells → IfOk result (λ it.
            Knows (Self.shape it) (Self.known it) (B.seen blocks.new)) }
        // No place has an item, and a crash leaves none.
        ensures reads { IsTrue B.tells → IfOk result (λ it. (place : List ℕ)
            → item_of (Self.shape it) (B.seen blocks.new).cur place ≡ None) }
        ensures firm { IsTrue B.tells → IfOk result (λ it. (place : List ℕ) (found : Option Item)
            → MayHold (Self.shape it) (B.seen blocks.new).may place found → found ≡ None) }
        ensures split { IfOk result (λ it. (Self.known it).split ≡ None) }
        ensures moves { IfOk result (λ it. (Self.known it).move ≡ None) }
        ensures met { IfOk result (λ it. (Self.known it).met ≡ []) }
        // It has that area alone, which is its only one.
        ensures holds { IfOk result (λ it.
            held_by (Self.shape it) (Self.known it) ≡ area ∷ []) }
        ensures owns { IfOk result (λ it. OwnsChain (Self.shape it) (Self.known it) space.now) }
        // At every moment, whether it fails or not.
        ensures touches { IsTrue B.tells → Touches
            (λ n. owner_of geometry.now space.now n ≡ Some part.0) (λ (_ : Image). Unit {0})
            (B.seen blocks.old) (B.seen blocks.new) }
        ensures count { (B.seen blocks.new).count ≡ (B.seen blocks.old).count }
        ensures size { (B.seen blocks.new).size ≡ (B.seen blocks.old).size }
        // It reads nothing.
        ensures never_read { IfErr result (λ no. no ≢ Fault Read) }
        ensures cause { HasStartCause (B.faults blocks.old) (B.faults blocks.new) result };
}
