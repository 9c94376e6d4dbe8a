//! The intervals of a part of either kind: slots, or records one after another.
ghost use Rattle.std.specs.Prelude.{◌≡◌, ◌≢◌, ◌≤◌, ◌<◌, ℕ, true, false, None, Some, IfSome};
ghost use Rattle.std.specs.Prelude.{MatchOption, length};
ghost use Rattle.vr_types.specs.Content.Item.{Standing};
ghost use Rattle.vr_space.specs.Numbered.{IsFilled, item_in, span_of};
ghost use Rattle.vr_space.specs.Part.{given};
ghost use Rattle.vr_chained.specs.Filled.{IsFirstHeld, IsItemSet, IsUnfilled, MayBeGiven};
ghost use Rattle.vr_chained.specs.Filled.{record_in};

use vr_entries::{next_record, record_at, write_entry, write_no_entry};
use vr_slots::{first_live, slot_at, write_empty, write_set};
use vr_space::ChainLayout;

/// The record at one of the places of an interval, lent from the block.
pub(crate) fn record_of<'a>(layout: &ChainLayout, block: &'a [u8], at: u32) -> Option<&'a [u8]>
    ensures { IsFilled layout.now block.now → MatchOption result
        (record_in layout.now at block.now ≡ None)
        (λ found. item_in layout.now at block.now ≡ Some (Standing found.now)) }
{
    if layout.relative {
        slot_at(layout, block, at)
    } else {
        record_at(layout, block, at)
    }
}

/// The first of the places of an interval with a record, from this one on.
pub(crate) fn first_held(layout: &ChainLayout, block: &[u8], from: u32) -> Option<u32>
    ensures some { IsFilled layout.now block.now → IfSome result
        (IsFirstHeld layout.now block.now from) }
    ensures below { IfSome result (λ at. at < span_of layout.now) }
    ensures none { IsFilled layout.now block.now → result ≡ None → (other : ℕ) → from ≤ other
        → record_in layout.now other block.now ≡ None }
{
    if layout.relative {
        first_live(layout, block, from)
    } else {
        next_record(layout, block, from)
    }
}

/// Writes an interval with what is given at one of its places. It answers false where there is
/// nothing to take away, or what is given may not stand there.
pub(crate) fn write_item(
    layout: &ChainLayout,
    block: &[u8],
    at: u32,
    bytes: Option<&[u8]>,
    out: &mut [u8],
) -> bool
    requires size { length out.old ≡ layout.now.geometry.size }
    requires at { at < span_of layout.now }
    ensures size { length out.new ≡ length out.old }
    ensures written { IsFilled layout.now block.now
        → MayBeGiven layout.now at (given bytes.entry) block.now → result ≡ true
        → IsItemSet layout.now at (given bytes.entry) block.now out.new }
    ensures none { IsFilled layout.now block.now
        → MayBeGiven layout.now at (given bytes.entry) block.now → result ≡ false
        → (given bytes.entry ≡ None) × (item_in layout.now at block.now ≡ None) }
{
    if layout.relative {
        write_set(layout, block, at, bytes, out)
    } else {
        write_entry(layout, block, at, bytes, out)
    }
}

/// Writes an interval without an item. `sample` is any block.
pub(crate) fn write_unfilled(layout: &ChainLayout, sample: &[u8], out: &mut [u8])
    requires size { length out.old ≡ layout.now.geometry.size }
    requires sample { length sample.now ≡ layout.now.geometry.size }
    ensures size { length out.new ≡ length out.old }
    ensures empty { IsUnfilled layout.now out.new }
{
    if layout.relative {
        write_empty(layout, sample, out);
    } else {
        write_no_entry(layout, out);
    }
}
