//! The head of the first area of a key-sequenced part that is made anew.
ghost use Rattle.std.specs.Prelude.{◌≡◌, length, replicate};
ghost use Rattle.vr_seqset.specs.SequenceSet.{IsSequenceSet};
ghost use Rattle.vr_start.specs.FirstHead.{MayBegin, first_record};

use vr_seqset::{SeqHead, SeqWriter};
use vr_space::Layout;

/// The most bytes of a key, as KEYS of DEFINE CLUSTER has it.
const LONGEST_KEY: usize = 255;

/// Writes the record: one entry, whose interval 0 has all places from the lowest to the highest.
fn write_record(layout: &Layout, lowest: &[u8], highest: &[u8], out: &mut [u8])
    requires part { MayBegin layout.now }
    requires size { length out.old ≡ layout.now.size }
    requires lowest { lowest.now ≡ replicate layout.now.key 0 }
    requires highest { highest.now ≡ replicate layout.now.key 255 }
    ensures { IsSequenceSet layout.now.area out.new (first_record layout.now) }
{
    let head = SeqHead {
        first: true,
        part: layout.part.0,
        next: None,
        top: 0,
        index_area: None,
        low: lowest,
    };
    let mut writer = SeqWriter::begin(&head, layout.area, out);
    writer.add(&[0], highest);
    writer.end();
}

/// Writes it with as many of these bytes as a key has.
fn write_with(layout: &Layout, zeros: &[u8], greatest: &[u8], out: &mut [u8])
    requires part { MayBegin layout.now }
    requires size { length out.old ≡ layout.now.size }
    requires zeros { zeros.now ≡ replicate 255 0 }
    requires greatest { greatest.now ≡ replicate 255 255 }
    ensures { IsSequenceSet layout.now.area out.new (first_record layout.now) }
{
    let key = layout.key as usize;
    write_record(layout, &zeros[..key], &greatest[..key], out);
}

/// Writes the head of the first area of a part without records into a block, whatever it held:
/// interval 0 has all places.
pub fn write_first_head(layout: &Layout, out: &mut [u8])
    requires part { MayBegin layout.now }
    requires size { length out.old ≡ layout.now.size }
    ensures { IsSequenceSet layout.now.area out.new (first_record layout.now) }
{
    write_with(layout, &[0; LONGEST_KEY], &[255; LONGEST_KEY], out);
}
