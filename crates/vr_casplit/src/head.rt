//! The heads of the two areas of a split.
ghost use Rattle.std.specs.Prelude.{◌≡◌, ◌<◌, ◌≤◌, ◌↔◌, [], All, IsTrue, Some, length, take, drop};
ghost use Rattle.vr_types.specs.Fields.{IsArea};
ghost use Rattle.vr_seqset.specs.Entry.{Entry};
ghost use Rattle.vr_seqset.specs.SequenceSet.{KeepsRules};
ghost use Rattle.vr_seqset.specs.Writer.{block_of, intervals_of, written};
ghost use Rattle.vr_seqset.specs.Reading.{record_in};
ghost use Rattle.vr_space.specs.Keyed.{IsHead, entries_of};
ghost use Rattle.vr_space.specs.Moves.{IsLower, IsUpper, cut_of, numbered_from};
ghost use Rattle.vr_casplit.specs.Moving.{HasShape};

use vr_seqset::{SeqEntries, SeqHead, SeqView, SeqWriter};
use vr_space::Layout;
use vr_types::PlaceBuffer;

/// Whether a record is that of a head of the part, in a block of this size, with this many entries.
fn has_shape(layout: &Layout, size: usize, view: &SeqView<'_>, entries: usize) -> bool
    ensures { IsTrue result ↔ HasShape layout.now size entries view.now }
{
    size == layout.size as usize
        && view.part() == layout.part.0
        && view.low().len() == usize::from(layout.key)
        && view.top() == 0
        && view.index_area().is_none()
        && view.count() == entries
        && are_single(view.entries())
}

/// Whether a block is a head of the part, with this many entries.
pub(crate) fn is_head(layout: &Layout, top: &[u8], entries: usize) -> bool
    ensures { IsTrue result
        ↔ (IsHead layout.now top.now × (length (entries_of top.now) ≡ entries)) }
{
    let Ok(view) = SeqView::read(top, layout.area) else {
        return false;
    };
    has_shape(layout, top.len(), &view, entries)
}

/// Whether each entry has one interval.
fn are_single(entries: SeqEntries<'_>) -> bool
    ensures { IsTrue result ↔ All (λ (entry : Entry). length entry.intervals ≡ 1) entries.entry }
{
    for entry in entries {
        if entry.intervals() != 1 {
            return false;
        }
    }
    true
}

/// The place at which the ranges of the first entries end, as many as stay.
pub(crate) fn read_cut(layout: &Layout, top: &[u8], stay: usize, cut: &mut PlaceBuffer)
    requires head { IsHead layout.now top.now }
    requires some { 0 < stay }
    requires fewer { stay < length (entries_of top.now) }
    requires room { layout.now.key ≡ cut.old.room }
    ensures cut { cut.new.place ≡ cut_of stay (record_in top.now) }
    ensures room { cut.new.room ≡ cut.old.room }
{
    if let Ok(view) = SeqView::read(top, layout.area) {
        cut.set(view.high(stay - 1));
    }
}

/// Adds the first entries, this many.
fn add_staying(writer: &mut SeqWriter<'_>, view: &SeqView<'_>, stay: usize)
    requires most { stay ≤ length view.now.entries }
    requires single { All (λ (entry : Entry). length entry.intervals ≡ 1) view.now.entries }
    requires none { (written writer.old).entries ≡ [] }
    requires rules { KeepsRules (intervals_of writer.old) (length (block_of writer.old).now)
        (record (written writer.old) { entries = take stay view.now.entries }) }
    ensures written { written writer.new ≡ record (written writer.old) {
      entries = take stay view.now.entries;
    } }
    ensures same_block { (block_of writer.new).ghost_name ≡ (block_of writer.old).ghost_name }
    ensures size { length (block_of writer.new).now ≡ length (block_of writer.old).now }
    ensures intervals { intervals_of writer.new ≡ intervals_of writer.old }
{
    for i in 0..stay {
        writer.add(&[view.interval(i, 0)], view.high(i));
    }
}

/// Adds the other entries, whose intervals get the numbers from 0 on.
fn add_moved(writer: &mut SeqWriter<'_>, view: &SeqView<'_>, stay: usize)
    requires most { stay ≤ length view.now.entries }
    requires none { (written writer.old).entries ≡ [] }
    requires rules { KeepsRules (intervals_of writer.old) (length (block_of writer.old).now)
        (record (written writer.old) { entries = numbered_from 0 (drop stay view.now.entries) }) }
    ensures written { written writer.new ≡ record (written writer.old) {
      entries = numbered_from 0 (drop stay view.now.entries);
    } }
    ensures same_block { (block_of writer.new).ghost_name ≡ (block_of writer.old).ghost_name }
    ensures size { length (block_of writer.new).now ≡ length (block_of writer.old).now }
    ensures intervals { intervals_of writer.new ≡ intervals_of writer.old }
{
    for i in 0..view.count() - stay {
        writer.add(&[i as u16], view.high(stay + i));
    }
}

/// Writes the head of the area that gets the other entries.
pub(crate) fn write_upper(layout: &Layout, top: &[u8], stay: usize, out: &mut [u8])
    requires head { IsHead layout.now top.now }
    requires some { 0 < stay }
    requires fewer { stay < length (entries_of top.now) }
    requires out { length out.old ≡ layout.now.size }
    ensures { IsUpper layout.now stay top.now out.new }
{
    let Ok(view) = SeqView::read(top, layout.area) else {
        unreachable!("it is a head")
    };
    let head = SeqHead {
        first: false,
        part: view.part(),
        next: view.next(),
        top: 0,
        index_area: None,
        low: view.high(stay - 1),
    };
    let mut writer = SeqWriter::begin(&head, layout.area, out);
    add_moved(&mut writer, &view, stay);
    writer.end();
}

/// Writes the head of the area that keeps the first entries, which leads to another.
pub(crate) fn write_lower(layout: &Layout, top: &[u8], stay: usize, into: u32, out: &mut [u8])
    requires head { IsHead layout.now top.now }
    requires some { 0 < stay }
    requires fewer { stay < length (entries_of top.now) }
    requires out { length out.old ≡ layout.now.size }
    requires area { IsArea (Some into) }
    ensures { IsLower layout.now stay into top.now out.new }
{
    let Ok(view) = SeqView::read(top, layout.area) else {
        unreachable!("it is a head")
    };
    let head = SeqHead {
        first: view.first(),
        part: view.part(),
        next: Some(into),
        top: 0,
        index_area: None,
        low: view.low(),
    };
    let mut writer = SeqWriter::begin(&head, layout.area, out);
    add_staying(&mut writer, &view, stay);
    writer.end();
}
