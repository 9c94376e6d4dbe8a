//! Whether the parts of a volume that is opened have room for what is put back into them.
ghost use Rattle.std.specs.Prelude.{◌≡◌, ◌↔◌, All, IsTrue, IfErr, IfOk, map};
ghost use Rattle.vr_types.specs.Blocks.{Keeps};
ghost use Rattle.vr_part.specs.Any.{known_any, shape_any};
ghost use Rattle.vr_space.specs.Part.{IsOn, Knows, Stands};
ghost use Rattle.vr_undo.specs.Records.{images_in};
ghost use Rattle.vr_recover.specs.Found.{AllStand, AreItsPlaces, AreKnown, HasRoomOf};
ghost use Rattle.vr_recover.specs.OpenNo.{HasOpenCause, IsSilentNo};

use crate::open_no::OpenNo;
use vr_part::AnyPart;
use vr_space::{Kept, Whence};
use vr_types::Blocks;
use vr_undo::Undo;

/// Whether a part has room for what is kept of it. A part of which no record is kept isn't read.
fn has_room<B: Blocks>(blocks: &mut B, part: &mut AnyPart, undo: &Undo) -> Result<bool, OpenNo>
    requires on { IsOn (shape_any part.old) (B.seen blocks.old) }
    requires places { AreItsPlaces (images_in undo.now) (shape_any part.old) }
    requires stands { IsTrue B.tells → Stands (shape_any part.old) (B.seen blocks.old).cur }
    requires knows { IsTrue B.tells
        → Knows (shape_any part.old) (known_any part.old) (B.seen blocks.old) }
    ensures room { IsTrue B.tells → IfOk result (λ is. IsTrue is
        ↔ HasRoomOf (images_in undo.now) (B.seen blocks.old).cur (shape_any part.old)) }
    ensures same { part.new ≡ part.old }
    ensures silent { IfErr result IsSilentNo }
    ensures keeps { Keeps B.tells (B.seen blocks.old) (B.seen blocks.new) }
    ensures cause { HasOpenCause (B.faults blocks.old) (B.faults blocks.new) result }
{
    let Some(_) = undo.next_kept(part.number(), Whence::Start) else {
        return Ok(true);
    };
    let has = part.has_rooms(blocks, undo)?;
    Ok(has)
}

/// Whether each part has room for what is kept of it. The parts stay as they are.
pub(crate) fn have_room<B: Blocks>(
    blocks: &mut B,
    parts: &mut [AnyPart],
    undo: &Undo,
) -> Result<bool, OpenNo>
    requires on { All (λ shape. IsOn shape (B.seen blocks.old)) (map shape_any parts.old) }
    requires places { All (AreItsPlaces (images_in undo.now)) (map shape_any parts.old) }
    requires stand { IsTrue B.tells
        → AllStand (map shape_any parts.old) (B.seen blocks.old).cur }
    requires known { IsTrue B.tells → AreKnown parts.old (B.seen blocks.old).cur }
    ensures room { IsTrue B.tells → IfOk result (λ are. IsTrue are
        ↔ All (HasRoomOf (images_in undo.now) (B.seen blocks.old).cur)
        (map shape_any parts.old)) }
    ensures same { parts.new ≡ parts.old }
    ensures silent { IfErr result IsSilentNo }
    ensures keeps { Keeps B.tells (B.seen blocks.old) (B.seen blocks.new) }
    ensures cause { HasOpenCause (B.faults blocks.old) (B.faults blocks.new) result }
{
    for part in parts.iter_mut() {
        let has = has_room(blocks, part, undo)?;
        if !has {
            return Ok(false);
        }
    }
    Ok(true)
}
