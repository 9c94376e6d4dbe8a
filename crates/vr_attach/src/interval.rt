//! The rules of an interval, in the order of their numbers.
ghost use Rattle.std.specs.Prelude.{◌≡◌, ◌↔◌, ℕ, List, IsTrue, All, true, MatchOption, length, map, IfSome};
ghost use Rattle.std.specs.List.Sorted.{IsStrictlySortedBy};
ghost use Rattle.std.specs.declared.cmp.Ordering.TheVariants.{Less};
ghost use Rattle.vr_types.specs.Content.{place_cmp};
ghost use Rattle.vr_ci.specs.Interval as ci;
ghost use Rattle.vr_ci_match.specs.declared.form.Shape.TheVariants as shapes;
ghost use Rattle.vr_space.specs.Room.{is_in as is_in_range};
ghost use Rattle.vr_space.specs.Keyed.{HoldsRange, IsKept, IsValid, key_of};
ghost use Rattle.vr_space.specs.Lent.{range_lent};
ghost use Rattle.vr_attach.specs.Damage.{AreInOrder, IntervalBreaks, IsLeastBroken, Spells};

use crate::rule::Rule;
use vr_ci::{CiView, Form, Shape};
use vr_space::{Layout, LentRange, is_in};

/// Whether a record is live, has its whole key, and is no longer than the longest.
fn is_kept(layout: &Layout, bytes: &[u8], live: bool) -> bool
    ensures { IsTrue result ↔ ((live ≡ true) × IsValid layout.now bytes.now) }
{
    live && layout.has_key(bytes) && bytes.len() <= layout.most as usize
}

/// Whether each item of an interval is a live and valid record.
fn are_kept(layout: &Layout, view: &CiView<'_>) -> bool
    ensures { IsTrue result ↔ All (IsKept layout.now) view.now.items }
{
    for (bytes, live) in view.iter() {
        if !is_kept(layout, bytes, live) {
            return false;
        }
    }
    true
}

/// Whether a key is above the one before it, where there is one.
fn is_above(last: Option<&[u8]>, key: &[u8]) -> bool
    ensures { IsTrue result ↔ IfSome last.entry (λ last. place_cmp last.now key.now ≡ Less) }
{
    match last {
        Some(last) => last.cmp(key).is_lt(),
        None => true,
    }
}

/// Whether the records of an interval stand in the order of their keys.
fn ascend(layout: &Layout, view: &CiView<'_>) -> bool
    requires { All (IsKept layout.now) view.now.items }
    ensures { IsTrue result ↔ IsStrictlySortedBy place_cmp
        (map (λ (item : ci.Item). key_of layout.now item.bytes) view.now.items) }
{
    let mut last = None;
    for (bytes, _) in view.iter() {
        let key = layout.key_of(bytes);
        if !is_above(last, key) {
            return false;
        }
        last = Some(key);
    }
    true
}

/// Whether the records of an interval are all in a range.
fn are_within(layout: &Layout, range: &LentRange<'_>, view: &CiView<'_>) -> bool
    requires { All (IsKept layout.now) view.now.items }
    ensures { IsTrue result ↔ All (λ (item : ci.Item). IsTrue (is_in_range (range_lent range.now)
        (key_of layout.now item.bytes))) view.now.items }
{
    for (bytes, _) in view.iter() {
        if !is_in(range, layout.key_of(bytes)) {
            return false;
        }
    }
    true
}

/// Whether the records of an interval ascend, and are in a range unless it is busy.
fn are_in_order(layout: &Layout, range: &LentRange<'_>, view: &CiView<'_>) -> bool
    requires { All (IsKept layout.now) view.now.items }
    ensures { IsTrue result ↔ AreInOrder layout.now (range_lent range.now) view.now }
{
    ascend(layout, view) && (view.busy() || are_within(layout, range, view))
}

/// The same as `interval_rule`, of an interval of records that was read.
fn records_rule(layout: &Layout, range: &LentRange<'_>, view: &CiView<'_>) -> Option<Rule>
    requires { view.now.shape ≡ shapes.Records }
    ensures { (block : List ℕ) → Spells layout.now block view.now → MatchOption result
        (HoldsRange layout.now (range_lent range.now) block)
        (IsLeastBroken (IntervalBreaks layout.now (range_lent range.now) block)) }
{
    if !are_kept(layout, view) {
        return Some(Rule::Record);
    }
    if !are_in_order(layout, range, view) {
        return Some(Rule::Order);
    }
    None
}

/// The least rule that the interval of a range breaks.
pub(crate) fn interval_rule(layout: &Layout, range: &LentRange<'_>, block: &[u8]) -> Option<Rule>
    requires { length block.now ≡ layout.now.size }
    ensures { MatchOption result (HoldsRange layout.now (range_lent range.now) block.now)
        (IsLeastBroken (IntervalBreaks layout.now (range_lent range.now) block.now)) }
{
    let Ok(view) = CiView::read(Form::Plain, block) else {
        return Some(Rule::ControlInterval);
    };
    match view.shape() {
        Shape::EndOfFile => Some(Rule::EndOfFile),
        Shape::Segment { .. } => Some(Rule::Record),
        Shape::Records => records_rule(layout, range, &view),
    }
}
