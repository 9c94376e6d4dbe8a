//! The two intervals that a split writes, made of the one that is split.
ghost use Rattle.std.specs.Prelude.{◌≡◌, ℕ, List, true, length};
ghost use Rattle.std.specs.Borrow.{Bor};
ghost use Rattle.std.specs.Option.{option_map};
ghost use Rattle.vr_space.specs.Room.{Range, is_above};
ghost use Rattle.vr_space.specs.Keyed.{Keyed, HoldsRange};
ghost use Rattle.vr_space.specs.Search.{keys_of};
ghost use Rattle.vr_split.specs.Halves.{HasRange, IsBusyCopy, AreBefore};

use crate::records::write_records;
use vr_ci::{CiView, Form};
use vr_space::{Layout, count_up_to};

/// How many records of an interval come before a range that begins here.
fn count_before(layout: &Layout, block: &[u8], low: Option<&[u8]>) -> usize
    ensures { (range : Range) → HoldsRange layout.now range block.now
        → AreBefore (keys_of layout.now block.now)
        (option_map (λ (place : Bor (List ℕ)). place.now) low.entry) result }
{
    match low {
        None => 0,
        Some(low) => count_up_to(layout, block, low),
    }
}

/// Writes the records of an interval in a range, above the low place and up to the high one, into a
/// block of its size. It is not busy.
pub(crate) fn write_range(
    layout: &Layout,
    block: &[u8],
    low: Option<&[u8]>,
    high: &[u8],
    out: &mut [u8],
)
    requires { length out.old ≡ length block.now }
    ensures { (range : Range) → HoldsRange layout.now range block.now
        → is_above (option_map (λ (place : Bor (List ℕ)). place.now) low.entry) high.now ≡ true
        → HasRange layout.now (record {
          low = option_map (λ (place : Bor (List ℕ)). place.now) low.entry;
          high = high.now;
        }) block.now out.new }
{
    let from = count_before(layout, block, low);
    let to = count_up_to(layout, block, high);
    write_records(block, from, to, false, out);
}

/// Writes all the records of an interval into a block of its size, which is busy.
pub(crate) fn write_busy(block: &[u8], out: &mut [u8])
    requires { length out.old ≡ length block.now }
    ensures { (part : Keyed) (range : Range) → HoldsRange part range block.now
        → IsBusyCopy part block.now out.new }
{
    let Ok(view) = CiView::read(Form::Plain, block) else {
        return;
    };
    write_records(block, 0, view.count(), true, out);
}
