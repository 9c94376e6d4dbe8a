//! The contract of every part of a volume.
ghost use Rattle.std.specs.Prelude.{◌≡◌, ◌⊎◌, ◌<◌, ◌≤◌, ℕ, List, Option, [], None, Some, IsTrue};
ghost use Rattle.std.specs.Prelude.{length};
ghost use Rattle.std.specs.Prelude.{IfOk, OnOk, IfErr, OnErr, MatchOption, All};
ghost use Rattle.std.specs.Borrow.{sem};
ghost use Rattle.std.specs.Io.BufRead.{Rests};
ghost use Rattle.vr_types.specs.Blocks.{Keeps};
ghost use Rattle.vr_types.specs.Faults.{HasCause};
ghost use Rattle.vr_types.specs.Regions.{Touches};
ghost use Rattle.vr_types.specs.Space.{free_count};
ghost use Rattle.vr_types.specs.declared.fault.DeviceFault.TheVariants.{Read, Write};
ghost use Rattle.vr_types.specs.declared.unit.StageKind.{StageKind};
ghost use Rattle.vr_space.specs.declared.room.Room.TheVariants as answers;
ghost use Rattle.vr_space.specs.Known.{Known, HasMet, KeepsMet, MeetsPlace};
ghost use Rattle.vr_space.specs.Owners.{Owners};
ghost use Rattle.vr_space.specs.Part.{
  Shape,
  address_of,
  part_no,
  place_length,
  item_of,
  record_read,
  held_by,
  left_by,
  room_of,
  IsOn,
  InHeld,
  InPart,
  IsPlaceOf,
  IsLengthOf,
  IsGiven,
  Stands,
  IsAtRest,
  MayGrow,
  IsQuiet,
  KeepsChain,
  HasMore,
  HasOwners,
  HasKeptRoom,
  HasRoom,
  IsStageDue,
  Knows,
  OwnersAfter,
  OwnsClaimed,
  CanSet,
  given,
  AddsTo,
  Nothing,
  Just,
  SameRecords,
  SameStages,
  SetsOne,
  DueMore,
  DueMoreAt,
  NextIs,
};

use crate::kept::Kept;
use crate::room::Room;
use crate::whence::Whence;
use std::alloc::Global;
use vr_types::{Blocks, DeviceFault, OutOfMemory, Place, PlaceBuffer, Space, StageKind};

/// Records at ascending places, on blocks. Where the device reports its contents, a clause names
/// the record at a place, what a crash may leave there, and what a call adds to that. Only
/// `keep_places` takes memory.
pub trait Part {
    /// Where the part is on its blocks, and how they are spelled.
    ghost shape: { Self → Shape };

    /// What it keeps in memory of its blocks.
    ghost known: { Self → Known };

    /// The blocks that the last `set` put.
    ghost put: { Self → List ℕ };

    /// Lends the record at the place. The blocks come first, since they lend it.
    fn look<'a, B: Blocks>(
        blocks: &'a mut B,
        part: &mut Self,
        place: &Place,
    ) -> Result<Option<&'a [u8]>, DeviceFault>
        requires on { IsOn (shape part.old) (B.seen blocks.old) }
        requires place { IsPlaceOf (shape part.old) place.now }
        requires stands { IsTrue B.tells → Stands (shape part.old) (B.seen blocks.old).cur }
        requires knows { IsTrue B.tells → Knows (shape part.old) (known part.old)
            (B.seen blocks.old) }
        ensures item { IsTrue B.tells → IfOk result (λ found. MatchOption found
            (record_read (shape part.old) (B.seen blocks.old).cur place.now ≡ None)
            (λ s. record_read (shape part.old) (B.seen blocks.old).cur place.now ≡ Some s.now)) }
        ensures shape { shape part.new ≡ shape part.old }
        ensures known { known part.new ≡ known part.old }
        ensures put { put part.new ≡ put part.old }
        ensures* after { sem 𝓛 (Rests B.row blocks.entry (λ new.
            Keeps B.tells (B.seen blocks.old) (B.seen new)
            × HasCause (B.faults blocks.old) (B.faults new) result)) };

    /// Gives the least place with a record that `from` allows; false where there is none.
    fn next<B: Blocks>(
        &mut self,
        blocks: &mut B,
        from: Whence<'_>,
        into: &mut PlaceBuffer,
    ) -> Result<bool, DeviceFault>
        requires on { IsOn (shape self.old) (B.seen blocks.old) }
        requires room { place_length (shape self.old) ≤ into.old.room }
        requires stands { IsTrue B.tells → Stands (shape self.old) (B.seen blocks.old).cur }
        requires knows { IsTrue B.tells → Knows (shape self.old) (known self.old)
            (B.seen blocks.old) }
        ensures next { IsTrue B.tells → IfOk result (λ found.
            NextIs (shape self.old) (B.seen blocks.old).cur from.entry found into.new.place) }
        ensures room { into.new.room ≡ into.old.room }
        ensures keeps { Keeps B.tells (B.seen blocks.old) (B.seen blocks.new) }
        ensures cause { HasCause (B.faults blocks.old) (B.faults blocks.new) result }
        ensures shape { shape self.new ≡ shape self.old }
        ensures known { known self.new ≡ known self.old }
        ensures put { put self.new ≡ put self.old };

    /// Forgets what it met, and makes room to keep what it will meet at this many places: as many
    /// calls of `room` and then of `set` at them read each block once. It reads nothing.
    fn keep_places(&mut self, alloc: Global, count: usize) -> Result<(), OutOfMemory>
        ensures known { known self.new
            ≡ record (known self.old) { met = (known self.new).met; most = (known self.new).most } }
        ensures forgets { (known self.new).met ≡ (known self.old).met ⊎ (known self.new).met ≡ [] }
        ensures none { OnOk result ((known self.new).met ≡ []) }
        ensures most { OnOk result (count ≤ (known self.new).most) }
        ensures shape { shape self.new ≡ shape self.old }
        ensures put { put self.new ≡ put self.old };

    /// Whether a record of this length has room at the place, beside what stands there and what is
    /// kept. The part keeps what it met, so that `set` at the place reads nothing.
    fn room<B: Blocks, K: Kept>(
        &mut self,
        blocks: &mut B,
        space: &Space,
        kept: &K,
        place: &Place,
        length: u32,
    ) -> Result<Room, DeviceFault>
        requires on { IsOn (shape self.old) (B.seen blocks.old) }
        requires place { IsPlaceOf (shape self.old) place.now }
        requires length { IsLengthOf (shape self.old) length }
        requires stands { IsTrue B.tells → Stands (shape self.old) (B.seen blocks.old).cur }
        requires room { IsTrue B.tells → HasKeptRoom (shape self.old)
            (K.kept kept.now (part_no (shape self.old))) (B.seen blocks.old) }
        requires knows { IsTrue B.tells → Knows (shape self.old) (known self.old)
            (B.seen blocks.old) }
        ensures answer { IsTrue B.tells → IfOk result (λ room. room
            ≡ room_of (shape self.old) (known self.old) (B.seen blocks.old).cur
            (free_count space.now) (K.kept kept.now (part_no (shape self.old))) place.now length) }
        ensures knows { IsTrue B.tells → Knows (shape self.old) (known self.new)
            (B.seen blocks.new) }
        ensures met { OnOk result (MeetsPlace place.now (known self.old) (known self.new)) }
        ensures keeps { Keeps B.tells (B.seen blocks.old) (B.seen blocks.new) }
        ensures cause { HasCause (B.faults blocks.old) (B.faults blocks.new) result }
        ensures shape { shape self.new ≡ shape self.old }
        ensures split { (known self.new).split ≡ (known self.old).split }
        ensures moves { (known self.new).move ≡ (known self.old).move }
        ensures areas { (known self.new).areas ≡ (known self.old).areas }
        ensures used { (known self.new).used ≡ (known self.old).used }
        ensures tail { (known self.new).tail ≡ (known self.old).tail }
        ensures put { put self.new ≡ put self.old };

    /// Does the stage that comes before such a record, and answers it. Each place keeps its item.
    /// A stage that claims an area takes the least free one of `space`, once the part's blocks lead
    /// to it. The caller asks `room` again.
    fn advance<B: Blocks, K: Kept>(
        &mut self,
        blocks: &mut B,
        space: &mut Space,
        kept: &K,
        place: &Place,
        length: u32,
    ) -> Result<StageKind, DeviceFault>
        requires on { IsOn (shape self.old) (B.seen blocks.old) }
        requires place { IsPlaceOf (shape self.old) place.now }
        requires length { IsLengthOf (shape self.old) length }
        requires rests { IsTrue B.tells → IsQuiet (shape self.old) (B.seen blocks.old) }
        requires room { IsTrue B.tells → HasKeptRoom (shape self.old)
            (K.kept kept.now (part_no (shape self.old))) (B.seen blocks.old) }
        requires knows { IsTrue B.tells → Knows (shape self.old) (known self.old)
            (B.seen blocks.old) }
        requires due { IsTrue B.tells → IsStageDue (shape self.old) (known self.old)
            (B.seen blocks.old).cur (free_count space.old)
            (K.kept kept.now (part_no (shape self.old))) place.now length }
        ensures stage { IsTrue B.tells → IfOk result (λ kind. answers.Stage kind
            ≡ room_of (shape self.old) (known self.old) (B.seen blocks.old).cur
            (free_count space.old) (K.kept kept.now (part_no (shape self.old))) place.now length) }
        ensures owners { IfOk result (λ kind.
            OwnersAfter (part_no (shape self.old)) kind space.old space.new) }
        ensures owners_stay { OnErr result (space.new ≡ space.old) }
        // What it keeps of its areas goes with the areas that it owns.
        ensures chain { OnOk result (KeepsChain (shape self.old)
            (held_by (shape self.old) (known self.old)) (held_by (shape self.old) (known self.new))
            space.old space.new) }
        ensures chain_stays { OnErr result (held_by (shape self.old) (known self.new)
            ≡ held_by (shape self.old) (known self.old)) }
        // Fewer stages of this part are left than before it; what is used is counted.
        ensures more { IsTrue B.tells → HasOwners (shape self.old) space.old
            → (owners grown : Owners) → MayGrow (shape self.old) space.old owners grown
            → IsAtRest (shape self.old) owners (B.seen blocks.old)
            → OwnsClaimed (shape self.old) owners (known self.old)
            → IfOk result (λ kind. HasMore (shape self.old) kind (known self.old) (known self.new)
            (free_count space.old) (free_count space.new)) }
        // At every moment, whether it fails or not.
        ensures adds { IsTrue B.tells → (owners grown : Owners)
            → MayGrow (shape self.old) space.old owners grown
            → IsAtRest (shape self.old) owners (B.seen blocks.old)
            → OwnsClaimed (shape self.old) owners (known self.old)
            → AddsTo (shape self.old) grown Nothing (B.seen blocks.old) (B.seen blocks.new) }
        ensures same { IsTrue B.tells → SameRecords (shape self.old)
            (B.seen blocks.old).cur (B.seen blocks.new).cur }
        ensures due { IsTrue B.tells → OnOk result
            (DueMore (shape self.old) [] (B.seen blocks.old) (B.seen blocks.new)) }
        ensures rests { IsTrue B.tells → (owners grown : Owners)
            → MayGrow (shape self.old) space.old owners grown
            → IsAtRest (shape self.old) owners (B.seen blocks.old)
            → OwnsClaimed (shape self.old) owners (known self.old)
            → OnOk result (IsAtRest (shape self.old) grown (B.seen blocks.new)) }
        ensures stays { IsTrue B.tells → (owners : Owners) → space.new ≡ space.old
            → IsAtRest (shape self.old) owners (B.seen blocks.old)
            → OwnsClaimed (shape self.old) owners (known self.old)
            → OnOk result (IsAtRest (shape self.old) owners (B.seen blocks.new)) }
        ensures room { IsTrue B.tells → HasKeptRoom (shape self.old)
            (K.kept kept.now (part_no (shape self.old))) (B.seen blocks.new) }
        ensures rooms { IsTrue B.tells → (owners grown : Owners)
            → MayGrow (shape self.old) space.old owners grown
            → IsAtRest (shape self.old) owners (B.seen blocks.old)
            → OwnsClaimed (shape self.old) owners (known self.old)
            → Touches (InPart (shape self.old) grown)
            (HasRoom (shape self.old) (K.kept kept.now (part_no (shape self.old))))
            (B.seen blocks.old) (B.seen blocks.new) }
        ensures knows { IsTrue B.tells → OnOk result
            (Knows (shape self.old) (known self.new) (B.seen blocks.new)) }
        ensures split { OnErr result ((known self.new).split ≡ (known self.old).split) }
        ensures moves { OnErr result ((known self.new).move ≡ (known self.old).move) }
        // It reads before it puts.
        ensures unread { IfErr result (λ fault. fault ≡ Read
            → Keeps B.tells (B.seen blocks.old) (B.seen blocks.new)
            × (IsTrue B.tells → Knows (shape self.old) (known self.new)
            (B.seen blocks.new))) }
        ensures count { (B.seen blocks.new).count ≡ (B.seen blocks.old).count }
        ensures size { (B.seen blocks.new).size ≡ (B.seen blocks.old).size }
        ensures cause { HasCause (B.faults blocks.old) (B.faults blocks.new) result }
        ensures shape { shape self.new ≡ shape self.old };

    /// Makes these bytes the record at the place, or takes the record there away: what is taken out
    /// of an entry-sequenced part is withdrawn, and keeps its address.
    fn set<B: Blocks, K: Kept>(
        &mut self,
        blocks: &mut B,
        kept: &K,
        place: &Place,
        bytes: Option<&[u8]>,
    ) -> Result<(), DeviceFault>
        requires on { IsOn (shape self.old) (B.seen blocks.old) }
        requires place { IsPlaceOf (shape self.old) place.now }
        requires record { IsGiven (shape self.old) place.now bytes }
        requires rests { IsTrue B.tells → IsQuiet (shape self.old) (B.seen blocks.old) }
        requires room { IsTrue B.tells → HasKeptRoom (shape self.old)
            (K.kept kept.now (part_no (shape self.old))) (B.seen blocks.old) }
        requires knows { IsTrue B.tells → Knows (shape self.old) (known self.old)
            (B.seen blocks.old) }
        requires can { IsTrue B.tells → CanSet (shape self.old) (known self.old)
            (B.seen blocks.old).cur (K.kept kept.now (part_no (shape self.old))) place.now
            (given bytes) }
        // At every moment, whether it fails or not.
        ensures adds { IsTrue B.tells → (owners : Owners)
            → IsAtRest (shape self.old) owners (B.seen blocks.old)
            → AddsTo (shape self.old) owners
            (Just place.now (left_by (shape self.old)
            (item_of (shape self.old) (B.seen blocks.old).cur place.now) (given bytes.entry)))
            (B.seen blocks.old) (B.seen blocks.new) }
        ensures set { IsTrue B.tells → OnOk result (SetsOne (shape self.old) place.now
            (given bytes.entry) (B.seen blocks.old).cur (B.seen blocks.new).cur) }
        ensures due { IsTrue B.tells → OnOk result
            (DueMoreAt (shape self.old) place.now (put self.new)
            (B.seen blocks.old) (B.seen blocks.new)) }
        // No stage becomes due, at whichever place.
        ensures stages { IsTrue B.tells → OnOk result (SameStages (shape self.old)
            (known self.old) (known self.new) (B.seen blocks.old).cur (B.seen blocks.new).cur) }
        ensures put { OnOk result (All (InHeld (shape self.old) (known self.new)) (put self.new)) }
        ensures below { OnOk result (All (λ n. n < (B.seen blocks.new).count) (put self.new)) }
        ensures rests { IsTrue B.tells → (owners : Owners)
            → IsAtRest (shape self.old) owners (B.seen blocks.old)
            → OnOk result (IsAtRest (shape self.old) owners (B.seen blocks.new)) }
        ensures room { IsTrue B.tells → HasKeptRoom (shape self.old)
            (K.kept kept.now (part_no (shape self.old))) (B.seen blocks.new) }
        ensures rooms { IsTrue B.tells → (owners : Owners)
            → IsAtRest (shape self.old) owners (B.seen blocks.old)
            → Touches (InPart (shape self.old) owners)
            (HasRoom (shape self.old) (K.kept kept.now (part_no (shape self.old))))
            (B.seen blocks.old) (B.seen blocks.new) }
        ensures knows { IsTrue B.tells → OnOk result
            (Knows (shape self.old) (known self.new) (B.seen blocks.new)) }
        // Where `room` met the place it reads nothing, and what it met elsewhere stays.
        ensures met { HasMet (known self.old) place.now
            → OnOk result (KeepsMet (known self.old) (known self.new)) }
        ensures reads { HasMet (known self.old) place.now → IfErr result (λ fault. fault ≡ Write) }
        // It reads before it puts.
        ensures unread { IfErr result (λ fault. fault ≡ Read
            → Keeps B.tells (B.seen blocks.old) (B.seen blocks.new)
            × (IsTrue B.tells → Knows (shape self.old) (known self.new)
            (B.seen blocks.new))) }
        ensures count { (B.seen blocks.new).count ≡ (B.seen blocks.old).count }
        ensures size { (B.seen blocks.new).size ≡ (B.seen blocks.old).size }
        ensures cause { HasCause (B.faults blocks.old) (B.faults blocks.new) result }
        ensures shape { shape self.new ≡ shape self.old }
        ensures split { (known self.new).split ≡ (known self.old).split }
        ensures moves { (known self.new).move ≡ (known self.old).move }
        ensures areas { (known self.new).areas ≡ (known self.old).areas }
        ensures used { (known self.new).used ≡ (known self.old).used };

    /// The address that the next record of this length gets, in bytes from the start of the part
    /// (DFSMS Using Data Sets, relative byte address). None of a part that isn't entry-sequenced. It
    /// reads nothing.
    fn address(&self, length: u32) -> Option<u32>
        ensures { result ≡ address_of (shape self.now) (known self.now) length };

    /// How many areas its chain has, as it keeps them in memory.
    fn areas(&self) -> u32
        ensures { result ≡ length (known self.now).areas };

    /// The blocks that the last `set` put, until the next call that may change the part.
    fn put_blocks(&self) -> &[u32]
        ensures { result.now ≡ put self.now };
}
