//! The head of a part that has one interval in use.
ghost use Rattle.std.specs.Prelude.{◌≡◌, ◌∷◌, [], length, replicate};
ghost use Rattle.vr_seqset.specs.SequenceSet.{IsSequenceSet};
ghost use Rattle.vr_space.specs.Keyed.{IsHead, entries_of};
ghost use Rattle.vr_format.specs.Planned.{HasHead, IsOnlyHead, all_places, one_head};

use vr_seqset::{SeqHead, SeqWriter};
use vr_space::Layout;

/// Writes the record: one entry, whose interval 0 has all places.
fn write_record(layout: &Layout, lowest: &[u8], highest: &[u8], out: &mut [u8])
    requires part { HasHead layout.now }
    requires size { length out.old ≡ layout.now.size }
    requires lowest { lowest.now ≡ replicate layout.now.key 0 }
    requires highest { highest.now ≡ replicate layout.now.key 255 }
    ensures { IsSequenceSet layout.now.area out.new (one_head layout.now) }
{
    let head = SeqHead {
        first: true,
        part: layout.part.0,
        next: None,
        top: 0,
        index_area: None,
        low: lowest,
    };
    let mut writer = SeqWriter::begin(&head, layout.area, out);
    writer.add(&[0], highest);
    writer.end();
}

/// Writes the head of a keyed part of one area into a block: interval 0 has all places, up to the
/// highest one.
pub(crate) fn write_head(layout: &Layout, lowest: &[u8], highest: &[u8], out: &mut [u8])
    requires part { HasHead layout.now }
    requires size { length out.old ≡ layout.now.size }
    requires lowest { lowest.now ≡ replicate layout.now.key 0 }
    requires highest { highest.now ≡ replicate layout.now.key 255 }
    ensures head { IsHead layout.now out.new }
    ensures only { IsOnlyHead layout.now.key out.new }
    ensures entries { entries_of out.new ≡ all_places layout.now.key ∷ [] }
{
    write_record(layout, lowest, highest, out);
}
