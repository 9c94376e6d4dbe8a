//! Writing an interval of records.
ghost use Rattle.std.specs.Prelude.{◌≡◌, ◌≤◌, ◌<◌, ◌+◌, ◌↔◌, ◌++◌, ◌∷◌, [], List, true, false};
ghost use Rattle.std.specs.Prelude.{None, IsTrue, length};
ghost use Rattle.std.specs.List.{AllByRecursion};
ghost use Rattle.vr_ci_match.specs.declared.form.Form.TheVariants as forms;
ghost use Rattle.vr_ci.specs.Interval as ci;
ghost use Rattle.vr_ci.specs.Writer.{Holds, buffer_of, form_of, size_of, written};
ghost use Rattle.vr_space.specs.Entries.{IsEntries, entry_item};
ghost use Rattle.vr_space.specs.Keyed.{items_of};
ghost use Rattle.vr_space.specs.Part.{given};
ghost use Rattle.vr_entries.specs.Entry.{HasNoEntry, IsEntrySet, MayBeSet, MayTake};
ghost use Rattle.vr_entries.specs.Written.{AreEntriesSet, AreEntryItems, HasRoom, MayStand};
ghost use Rattle.vr_entries.specs.Written.{item_left, items_added};

use crate::reading::{entries_in, item_at, taken_by};
use vr_ci::{CiView, CiWriter, Form};
use vr_space::ChainLayout;

/// Whether a record of this length may be given after the last item, for which this is the
/// displacement.
fn may_follow(layout: &ChainLayout, view: &CiView<'_>, at: u32, length: usize) -> bool
    requires items { AreEntryItems layout.now view.now.items }
    requires length { length ≤ layout.now.most }
    ensures { IsTrue result ↔ MayTake layout.now view.now.items at length None }
{
    let size = layout.geometry.size;
    let taken = taken_by(view);
    at == taken.bytes && taken.room + length as u32 + 7 <= size
}

/// Whether a record of this length may be given at a displacement.
fn may_take(layout: &ChainLayout, view: &CiView<'_>, at: u32, length: usize) -> bool
    requires items { AreEntryItems layout.now view.now.items }
    requires length { length ≤ layout.now.most }
    ensures { IsTrue result ↔ MayTake layout.now view.now.items at length
        (entry_item at view.now.items) }
{
    match item_at(view, at) {
        Some((item, _)) => item.len() == length,
        None => may_follow(layout, view, at, length),
    }
}

/// Whether a record has a byte, and is no longer than the part's longest.
fn is_entry_length(layout: &ChainLayout, length: usize) -> bool
    ensures { IsTrue result ↔ ((0 < length) × (length ≤ layout.now.most)) }
{
    length > 0 && length <= layout.most as usize
}

/// Whether a record may be given at a displacement; or none, where there is an item to withdraw.
fn may_stand(layout: &ChainLayout, view: &CiView<'_>, at: u32, bytes: Option<&[u8]>) -> bool
    requires { AreEntryItems layout.now view.now.items }
    ensures { IsTrue result ↔ MayStand layout.now at (given bytes.entry) view.now.items }
{
    match bytes {
        Some(bytes) => {
            is_entry_length(layout, bytes.len()) && may_take(layout, view, at, bytes.len())
        }
        None => item_at(view, at).is_some(),
    }
}

/// Adds the next item.
fn add_item(item: &[u8], live: bool, writer: &mut CiWriter<'_>)
    requires form { form_of writer.old ≡ forms.Plain }
    requires room { HasRoom (length item.now) writer.old }
    ensures added { (items : List ci.Item) → Holds writer.old items
        → Holds writer.new (items ++ written item.now live ∷ []) }
    ensures form { form_of writer.new ≡ form_of writer.old }
    ensures size { size_of writer.new ≡ size_of writer.old }
    ensures buffer { buffer_of writer.new ≡ buffer_of writer.old }
{
    if writer.add(item, live).is_err() {
        unreachable!("there is room for it")
    }
}

/// Adds the next item of an interval, or what is given in its place.
fn add_left(item: &[u8], live: bool, made: bool, bytes: Option<&[u8]>, writer: &mut CiWriter<'_>)
    requires form { form_of writer.old ≡ forms.Plain }
    requires one { ci.IsItem (record { bytes = item.now; live = live }) }
    requires room { HasRoom (length (item_left made (given bytes)
        (record { bytes = item.now; live = live })).bytes) writer.old }
    ensures added { (items : List ci.Item) → Holds writer.old items → Holds writer.new (items
        ++ item_left made (given bytes.entry) (record { bytes = item.now; live = live }) ∷ []) }
    ensures form { form_of writer.new ≡ form_of writer.old }
    ensures size { size_of writer.new ≡ size_of writer.old }
    ensures buffer { buffer_of writer.new ≡ buffer_of writer.old }
{
    if !made {
        return add_item(item, live, writer);
    }
    match bytes {
        Some(bytes) => add_item(bytes, true, writer),
        None => add_item(item, false, writer),
    }
}

/// Adds what is given after the last item, where it is given there.
fn add_last(next: bool, bytes: Option<&[u8]>, writer: &mut CiWriter<'_>)
    requires form { form_of writer.old ≡ forms.Plain }
    requires room { AllByRecursion (λ (one : ci.Item). HasRoom (length one.bytes) writer.old)
        (items_added next (given bytes)) }
    ensures added { (items : List ci.Item) → Holds writer.old items
        → Holds writer.new (items ++ items_added next (given bytes.entry)) }
    ensures form { form_of writer.new ≡ form_of writer.old }
    ensures size { size_of writer.new ≡ size_of writer.old }
    ensures buffer { buffer_of writer.new ≡ buffer_of writer.old }
{
    match bytes {
        Some(bytes) if next => add_item(bytes, true, writer),
        _ => {}
    }
}

/// Adds the items of an interval, with what is given at a displacement in place of the item there, or
/// after the last one.
fn add_entries(
    layout: &ChainLayout,
    view: &CiView<'_>,
    at: u32,
    bytes: Option<&[u8]>,
    writer: &mut CiWriter<'_>,
)
    requires form { form_of writer.old ≡ forms.Plain }
    requires size { size_of writer.old ≡ layout.now.geometry.size }
    requires empty { Holds writer.old [] }
    requires items { AreEntryItems layout.now view.now.items }
    requires given { MayStand layout.now at (given bytes) view.now.items }
    ensures added { (items : List ci.Item) × Holds writer.new items
        × AreEntriesSet at (given bytes.entry) view.now.items items }
    ensures form { form_of writer.new ≡ form_of writer.old }
    ensures size { size_of writer.new ≡ size_of writer.old }
    ensures buffer { buffer_of writer.new ≡ buffer_of writer.old }
{
    let mut from = 0;
    for (item, live) in view.iter() {
        add_left(item, live, from == at, bytes, writer);
        from += item.len() as u32;
    }
    add_last(from == at, bytes, writer);
}

/// Writes an interval with what is given at a displacement: a record in place of the item there, or
/// after the last one; or none, where the item there is withdrawn. It answers false where there is
/// nothing to withdraw, the block is no interval of records, or what is given may not stand there.
pub fn write_entry(
    layout: &ChainLayout,
    block: &[u8],
    at: u32,
    bytes: Option<&[u8]>,
    out: &mut [u8],
) -> bool
    requires size { length out.old ≡ layout.now.geometry.size }
    ensures size { length out.new ≡ length out.old }
    ensures written { IsEntries layout.now block.now
        → MayBeSet layout.now at (given bytes.entry) block.now → result ≡ true
        → IsEntrySet layout.now at (given bytes.entry) block.now out.new }
    ensures none { IsEntries layout.now block.now
        → MayBeSet layout.now at (given bytes.entry) block.now → result ≡ false
        → (given bytes.entry ≡ None) × (entry_item at (items_of block.now) ≡ None) }
    ensures only { result ≡ true → IsEntries layout.now block.now
        × MayStand layout.now at (given bytes.entry) (items_of block.now) }
{
    let Some(view) = entries_in(layout, block) else {
        return false;
    };
    if !may_stand(layout, &view, at, bytes) {
        return false;
    }
    let mut writer = CiWriter::begin(Form::Plain, out);
    add_entries(layout, &view, at, bytes, &mut writer);
    writer.end(false);
    true
}

/// Writes an interval without an item.
pub fn write_no_entry(layout: &ChainLayout, out: &mut [u8])
    requires size { length out.old ≡ layout.now.geometry.size }
    ensures size { length out.new ≡ length out.old }
    ensures empty { HasNoEntry layout.now out.new }
{
    // Its size is one that a block may have.
    let _ = &layout.geometry;
    let writer = CiWriter::begin(Form::Plain, out);
    writer.end(false);
}
