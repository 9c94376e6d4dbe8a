//! Whether there is room for what is kept, as a volume is opened.
ghost use Rattle.std.specs.Prelude.{◌≡◌, ◌↔◌, ℕ, List, All, IsTrue, IfOk, IfSome, false, true};
ghost use Rattle.vr_types.specs.Blocks.{Keeps};
ghost use Rattle.vr_types.specs.Faults.{HasCause};
ghost use Rattle.vr_types.specs.Image.{Image};
ghost use Rattle.vr_space.specs.Numbered.{HasKeptPlace, IsNumberPlace, IsNumberedOn};
ghost use Rattle.vr_space.specs.Part.{HasRoom, NumberedShape, Stands, part_no};
ghost use Rattle.vr_space.specs.Room.{length_at};
ghost use Rattle.vr_space.specs.Rosters.{IsOf};
ghost use Rattle.vr_chained.specs.Chain.{IsChainOf};

use crate::chain::Chain;
use crate::look::at_of;
use vr_entries::takes_record;
use vr_space::{Kept, Whence};
use vr_types::{Blocks, DeviceFault, Place};

/// Whether each slot for which a record is kept has its interval in the chain: that none of them is
/// past the last slot.
pub(crate) fn have_slots<K: Kept>(chain: &Chain, kept: &K) -> bool
    requires slots { chain.now.part.relative ≡ true }
    ensures { let shape = NumberedShape chain.now.part in
        (image : Image) → Stands shape image → IsChainOf chain.now image
        → All (λ (entry : List ℕ × ℕ). IsNumberPlace chain.now.part entry.0)
        (K.kept kept.now (part_no shape))
        → (IsTrue result ↔ HasRoom shape (K.kept kept.now (part_no shape)) image) }
{
    let end = chain.end_number() - 1;
    kept.next_kept(chain.part(), Whence::Above(&end.to_be_bytes()))
        .is_none()
}

/// Whether an item of the length of the record that is kept for a place is there.
fn has_entry<B: Blocks, K: Kept>(
    chain: &Chain,
    blocks: &mut B,
    kept: &K,
    place: &Place,
) -> Result<bool, DeviceFault>
    requires on { IsNumberedOn chain.now.part (B.seen blocks.old) }
    requires entries { chain.now.part.relative ≡ false }
    requires place { IsNumberPlace chain.now.part place.now }
    requires stands { IsTrue B.tells
        → Stands (NumberedShape chain.now.part) (B.seen blocks.old).cur }
    requires chain { IsTrue B.tells → IsChainOf chain.now (B.seen blocks.old).cur }
    ensures has { IsTrue B.tells → IfOk result (λ is. IfSome
        (length_at (K.kept kept.now (part_no (NumberedShape chain.now.part))) place.now)
        (λ n. IsTrue is ↔ HasKeptPlace chain.now.part (IsOf (B.seen blocks.old).cur)
        (place.now, n))) }
    ensures keeps { Keeps B.tells (B.seen blocks.old) (B.seen blocks.new) }
    ensures cause { HasCause (B.faults blocks.old) (B.faults blocks.new) result }
{
    let bytes = place.as_slice();
    let Some(number) = chain.block_at(bytes) else {
        return Ok(false);
    };
    let Some(length) = kept.longest(chain.part(), place) else {
        return Ok(false);
    };
    let block = blocks.get(number)?;
    let at = at_of(chain, bytes);
    Ok(takes_record(chain.layout(), block, at, length, false))
}

/// Whether there is an item of the length of each record that is kept, at its place: place by
/// place, one interval read for each of them.
pub(crate) fn have_entries<B: Blocks, K: Kept>(
    chain: &Chain,
    blocks: &mut B,
    kept: &K,
) -> Result<bool, DeviceFault>
    requires on { IsNumberedOn chain.now.part (B.seen blocks.old) }
    requires entries { chain.now.part.relative ≡ false }
    requires places { All (λ (entry : List ℕ × ℕ). IsNumberPlace chain.now.part entry.0)
        (K.kept kept.now (part_no (NumberedShape chain.now.part))) }
    requires stands { IsTrue B.tells
        → Stands (NumberedShape chain.now.part) (B.seen blocks.old).cur }
    requires chain { IsTrue B.tells → IsChainOf chain.now (B.seen blocks.old).cur }
    ensures rooms { IsTrue B.tells → IfOk result (λ is. IsTrue is
        ↔ HasRoom (NumberedShape chain.now.part)
        (K.kept kept.now (part_no (NumberedShape chain.now.part))) (B.seen blocks.old).cur) }
    ensures keeps { Keeps B.tells (B.seen blocks.old) (B.seen blocks.new) }
    ensures cause { HasCause (B.faults blocks.old) (B.faults blocks.new) result }
{
    let mut from = Whence::Start;
    loop {
        let Some(place) = kept.next_kept(chain.part(), from) else {
            return Ok(true);
        };
        if !has_entry(chain, blocks, kept, place)? {
            return Ok(false);
        }
        from = Whence::After(place);
    }
}
