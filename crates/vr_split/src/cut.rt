//! Where an interval is cut.
ghost use Rattle.std.specs.Prelude.{◌≡◌, ◌+◌, ◌<◌, ◌≤◌, IsTrue, length};
ghost use Rattle.vr_split.specs.Cut.{IsMiddle};

use crate::weights::Weights;

/// How many of the places stay below the cut, for a record that is the `at`-th of them, in an
/// interval that is the last of the data set, or not. Where it is the last place of the last one,
/// the cut is just before it; else after the least first places that have half of the weight, and
/// never after the last.
pub fn plan_cut(items: &Weights, at: usize, last: bool) -> usize
    requires two { 2 ≤ length items.now.lengths }
    requires at { at < length items.now.lengths }
    ensures end { IsTrue last → at + 1 ≡ length items.now.lengths → result ≡ at }
    ensures middle { (IsTrue last → at + 1 ≡ length items.now.lengths → ⊥)
        → IsMiddle items.now.lengths result }
{
    if last && at == items.len() - 1 {
        return at;
    }
    items.middle()
}
