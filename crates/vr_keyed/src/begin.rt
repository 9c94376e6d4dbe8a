//! Which split begins where a record lacks room: of its interval, or of its area.
ghost use Rattle.std.specs.Prelude.{◌≡◌, ◌<◌, ◌≤◌, IfOk, IfSome, IsTrue, MatchOption, length};
ghost use Rattle.vr_types.specs.Image.{block_at};
ghost use Rattle.vr_types.specs.Blocks.{Keeps};
ghost use Rattle.vr_types.specs.Faults.{HasCause};
ghost use Rattle.vr_space.specs.AreaCalls.{IsAreaOn};
ghost use Rattle.vr_space.specs.Keyed.{IsHead};
ghost use Rattle.vr_keyed.specs.Begin.{AreFew, HasNoBeginning, IsBeginning, entries_staying};

use crate::room::free_in;
use vr_seqset::{SeqView, interval_limit};
use vr_space::Layout;
use vr_types::{Blocks, DeviceFault};

/// A split that begins: of the interval that lacks room, or of the area, whose head has this many
/// entries, of which the first `stay` stay, and the others move.
#[derive(Clone, Copy)]
pub enum Beginning {
    Interval,
    Area { entries: usize, stay: usize },
}

/// How many entries of a head stay where its area is split for a record at a place: half of them,
/// rounded up. Where the record goes to the last interval of the data set, only the last entry
/// moves, so that adds in ascending order leave areas full but for one interval.
fn staying(view: &SeqView<'_>, place: &[u8]) -> usize
    requires two { 2 ≤ length view.now.entries }
    ensures stay { result ≡ entries_staying view.now place.now }
    ensures some { 0 < result }
    ensures fewer { result < length view.now.entries }
{
    let entries = view.count();
    if view.next().is_none() && view.high(entries - 2).cmp(place).is_lt() {
        return entries - 1;
    }
    entries - entries / 2
}

/// Which split begins under a head for a record at a place, with this many areas free on the
/// volume: of the interval, where one is free in the area. None where no split can, or the block is
/// no head.
pub fn begins(layout: &Layout, top: &[u8], place: &[u8], free: u32) -> Option<Beginning>
    ensures begins { IsHead layout.now top.now → MatchOption result
        (HasNoBeginning layout.now top.now free)
        (IsBeginning layout.now top.now place.now free) }
    // Whatever the block has.
    ensures few { IfSome result (AreFew layout.now free) }
{
    let Ok(view) = SeqView::read(top, layout.area) else {
        return None;
    };
    let limit = interval_limit(layout.area, layout.size as usize, layout.key as usize);
    if free_in(&view, limit as u16).is_some() {
        return Some(Beginning::Interval);
    }
    let entries = view.count();
    if free == 0 || entries < 2 || entries > layout.area as usize {
        return None;
    }
    let stay = staying(&view, place);
    Some(Beginning::Area { entries, stay })
}

/// The same, under the head that is read.
pub(crate) fn find_beginning<B: Blocks>(
    layout: &Layout,
    blocks: &mut B,
    place: &[u8],
    free: u32,
) -> Result<Option<Beginning>, DeviceFault>
    requires on { IsAreaOn layout.now (B.seen blocks.old) }
    requires head { IsTrue B.tells
        → IsHead layout.now (block_at (B.seen blocks.old).cur layout.now.head) }
    ensures begins { IsTrue B.tells → IfOk result (λ begins. MatchOption begins
        (HasNoBeginning layout.now (block_at (B.seen blocks.old).cur layout.now.head) free)
        (IsBeginning layout.now (block_at (B.seen blocks.old).cur layout.now.head) place.now
        free)) }
    ensures few { IfOk result (λ begins. IfSome begins (AreFew layout.now free)) }
    ensures keeps { Keeps B.tells (B.seen blocks.old) (B.seen blocks.new) }
    ensures cause { HasCause (B.faults blocks.old) (B.faults blocks.new) result }
{
    let top = blocks.get(layout.head)?;
    Ok(begins(layout, top, place, free))
}
