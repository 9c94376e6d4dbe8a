//! Stretches of places, and writing their records.
ghost use Rattle.std.specs.Prelude.{◌≡◌, ◌+◌, ◌-◌, ◌<◌, ◌≤◌, ◌↔◌, ◌++◌, ℕ, List};
ghost use Rattle.std.specs.Prelude.{[], ◌∷◌, All, IsTrue, length};
ghost use Rattle.std.specs.Borrow.{Bor};
ghost use Rattle.std.specs.Option.{option_map};
ghost use Rattle.std.specs.List.{AllByRecursion};
ghost use Rattle.vr_ci_match.specs.declared.form.Form.TheVariants.{Plain};
ghost use Rattle.vr_ci.specs.Interval as ci;
ghost use Rattle.vr_ci.specs.Writer.{Holds, form_of, size_of, buffer_of};
ghost use Rattle.vr_space.specs.Room.{is_above};
ghost use Rattle.vr_space.specs.Keyed.{IsKept, key_of};
ghost use Rattle.vr_keyed.specs.Setting.{is_between, items_in};

use vr_ci::{CiView, CiWriter};
use vr_space::Layout;

/// Places above the low one, where there is one, and up to the high one, with it or without.
#[derive(Clone, Copy)]
pub(crate) struct Stretch<'a> {
    pub(crate) low: Option<&'a [u8]>,
    pub(crate) high: &'a [u8],
    pub(crate) most: bool,
}

/// Whether a place is above another, where there is one.
fn is_past(low: Option<&[u8]>, place: &[u8]) -> bool
    ensures { result ≡ is_above (option_map (λ (low : Bor (List ℕ)). low.now) low.entry) place.now }
{
    match low {
        None => true,
        Some(low) => low.cmp(place).is_lt(),
    }
}

impl Stretch<'_> {
    /// Whether a place is in it.
    pub(crate) fn has(&self, place: &[u8]) -> bool
        ensures { result ≡ is_between (option_map (λ (low : Bor (List ℕ)). low.now) self.now.low)
            self.now.high.now self.now.most place.now }
    {
        let order = place.cmp(self.high);
        let most = if self.most {
            order.is_le()
        } else {
            order.is_lt()
        };
        is_past(self.low, place) && most
    }
}

/// Whether a record is one of a stretch.
fn is_wanted(layout: &Layout, stretch: &Stretch<'_>, bytes: &[u8]) -> bool
    ensures { IsTrue result ↔ ((layout.now.offset + layout.now.key ≤ length bytes.now)
        × IsTrue (is_between (option_map (λ (low : Bor (List ℕ)). low.now) stretch.now.low)
        stretch.now.high.now stretch.now.most (key_of layout.now bytes.now))) }
{
    layout.has_key(bytes) && stretch.has(layout.key_of(bytes))
}

/// Adds a record to what is written, if it is one of the stretch. It answers false where it has no
/// room.
fn add_wanted(
    layout: &Layout,
    stretch: &Stretch<'_>,
    bytes: &[u8],
    live: bool,
    writer: &mut CiWriter<'_>,
) -> bool
    requires plain { form_of writer.old ≡ Plain }
    requires some { 0 < length bytes.now }
    ensures added { (items : List ci.Item) (item : ci.Item) → Holds writer.old items
        → item.bytes ≡ bytes.now → item.live ≡ live → IsKept layout.now item
        → ci.room items + ci.room (items_in layout.now stretch.now (item ∷ []))
        ≤ size_of writer.old - 4
        → IsTrue result
        × Holds writer.new (items ++ items_in layout.now stretch.now (item ∷ [])) }
    ensures form { form_of writer.new ≡ form_of writer.old }
    ensures size { size_of writer.new ≡ size_of writer.old }
    ensures buffer { buffer_of writer.new ≡ buffer_of writer.old }
{
    if !is_wanted(layout, stretch, bytes) {
        return true;
    }
    writer.add(bytes, live).is_ok()
}

/// Adds the records of a stretch to what is written. It answers false where one has no room, and
/// says nothing of what is written then.
pub(crate) fn add_stretch(
    layout: &Layout,
    view: &CiView<'_>,
    stretch: &Stretch<'_>,
    writer: &mut CiWriter<'_>,
) -> bool
    requires plain { form_of writer.old ≡ Plain }
    requires items { AllByRecursion ci.IsItem view.now.items }
    ensures added { (items : List ci.Item) → Holds writer.old items
        → All (IsKept layout.now) view.now.items
        → ci.room items + ci.room (items_in layout.now stretch.now view.now.items)
        ≤ size_of writer.old - 4
        → IsTrue result
        × Holds writer.new (items ++ items_in layout.now stretch.now view.now.items) }
    ensures form { form_of writer.new ≡ form_of writer.old }
    ensures size { size_of writer.new ≡ size_of writer.old }
    ensures buffer { buffer_of writer.new ≡ buffer_of writer.old }
{
    let mut records = view.iter();
    for i in 0..view.count() {
        let Some((bytes, live)) = records.next() else {
            return true;
        };
        if !add_wanted(layout, stretch, bytes, live, writer) {
            return false;
        }
    }
    true
}
