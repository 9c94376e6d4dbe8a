//! A head with both entries of an interval that is split.
ghost use Rattle.std.specs.Prelude.{◌≡◌, ◌<◌, ◌↔◌, ◌++◌, ℕ, List, [], All, IsTrue, length};
ghost use Rattle.vr_seqset.specs.Entry.{Entry, IsWhole};
ghost use Rattle.vr_seqset.specs.SequenceSet.{KeepsRules, IsSequenceSet};
ghost use Rattle.vr_seqset.specs.Reading.{record_in};
ghost use Rattle.vr_seqset.specs.Writer.{block_of, intervals_of, written};
ghost use Rattle.vr_split.specs.Halves.{
  halved,
  halves,
  halved_record,
  IsCutOf,
  AreSingleWithout,
  CanHalve,
  MakesHead,
};

use vr_seqset::{SeqEntries, SeqEntry, SeqHead, SeqView, SeqWriter, interval_limit};
use vr_space::find_entry;

/// Whether each entry has one interval, and none this one.
fn are_single_without(entries: SeqEntries<'_>, into: u16) -> bool
    ensures { IsTrue result ↔ AreSingleWithout into entries.entry }
{
    for entry in entries {
        if entry.intervals() != 1 {
            return false;
        }
        if entry.interval(0) == into {
            return false;
        }
    }
    true
}

/// Whether the cut is in the range of the old interval's entry, below its end.
fn is_cut_of(view: &SeqView<'_>, old: u16, cut: &[u8]) -> bool
    requires { All (IsWhole (length view.now.low)) view.now.entries }
    ensures { IsTrue result ↔ IsCutOf old cut.now view.now }
{
    let Some((_, entry)) = find_entry(view, cut) else {
        return false;
    };
    entry.interval(0) == old && cut.cmp(&entry.high()).is_lt()
}

/// Whether a record, in a block of the size, may have both entries.
fn can_halve(cis: u16, size: usize, view: &SeqView<'_>, old: u16, into: u16, cut: &[u8]) -> bool
    requires { KeepsRules cis size view.now }
    ensures { IsTrue result ↔ CanHalve cis size old into cut.now view.now }
{
    cut.len() == view.low().len()
        && usize::from(into) < interval_limit(cis, size, cut.len())
        && are_single_without(view.entries(), into)
        && is_cut_of(view, old, cut)
}

/// Adds an entry, or both of the interval that is split.
fn add_halved(writer: &mut SeqWriter<'_>, entry: &SeqEntry<'_>, old: u16, into: u16, cut: &[u8])
    requires one { length entry.now.intervals ≡ 1 }
    requires rules { KeepsRules (intervals_of writer.old) (length (block_of writer.old).now)
        (record (written writer.old) {
          entries = (written writer.old).entries ++ halved old into cut.now entry.now;
        }) }
    ensures written { written writer.new ≡ record (written writer.old) {
      entries = (written writer.old).entries ++ halved old into cut.now entry.now;
    } }
    ensures same_block { (block_of writer.new).ghost_name ≡ (block_of writer.old).ghost_name }
    ensures size { length (block_of writer.new).now ≡ length (block_of writer.old).now }
    ensures intervals { intervals_of writer.new ≡ intervals_of writer.old }
{
    let number = entry.interval(0);
    if number != old {
        writer.add(&[number], entry.high());
        return;
    }
    writer.add(&[old], cut);
    writer.add(&[into], entry.high());
}

/// Adds the entries, with both of the interval that is split.
fn add_all(writer: &mut SeqWriter<'_>, entries: SeqEntries<'_>, old: u16, into: u16, cut: &[u8])
    requires single { All (λ (entry : Entry). length entry.intervals ≡ 1) entries }
    requires none { (written writer.old).entries ≡ [] }
    requires rules { KeepsRules (intervals_of writer.old) (length (block_of writer.old).now)
        (record (written writer.old) { entries = halves old into cut.now entries }) }
    ensures written { written writer.new ≡ record (written writer.old) {
      entries = halves old into cut.now entries.entry;
    } }
    ensures same_block { (block_of writer.new).ghost_name ≡ (block_of writer.old).ghost_name }
    ensures size { length (block_of writer.new).now ≡ length (block_of writer.old).now }
    ensures intervals { intervals_of writer.new ≡ intervals_of writer.old }
{
    for entry in entries {
        add_halved(writer, &entry, old, into, cut);
    }
}

/// Writes the record with both entries.
fn write_halved(view: &SeqView<'_>, cis: u16, old: u16, into: u16, cut: &[u8], out: &mut [u8])
    requires single { All (λ (entry : Entry). length entry.intervals ≡ 1) view.now.entries }
    requires some { 0 < length view.now.entries }
    requires rules { KeepsRules cis (length out.old) (halved_record old into cut.now view.now) }
    ensures { IsSequenceSet cis out.new (halved_record old into cut.now view.now) }
{
    let head = SeqHead {
        first: view.first(),
        part: view.part(),
        next: view.next(),
        top: view.top(),
        index_area: view.index_area(),
        low: view.low(),
    };
    let mut writer = SeqWriter::begin(&head, cis, out);
    add_all(&mut writer, view.entries(), old, into, cut);
    writer.end();
}

/// Writes a head, of an area of that many intervals, into a block of its size, with both entries of
/// an interval that is split: up to the cut the old one, and from there the other.
pub(crate) fn write_head(top: &[u8], cis: u16, old: u16, into: u16, cut: &[u8], out: &mut [u8])
    requires { length out.old ≡ length top.now }
    ensures { MakesHead cis top.now old into cut.now out.new }
{
    let Ok(view) = SeqView::read(top, cis) else {
        return;
    };
    if can_halve(cis, top.len(), &view, old, into, cut) {
        write_halved(&view, cis, old, into, cut, out);
    }
}
