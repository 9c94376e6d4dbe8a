//! The bytes of a sequence-set record, as they are written.
ghost use Rattle.std.specs.Prelude.{◌≡◌, ◌+◌, ◌*◌, ◌<◌, ◌≤◌, ◌^◌, ◌++◌, length, drop};
ghost use Rattle.std.specs.Prelude.{if◌then◌else◌};
ghost use Rattle.std.specs.List.{flat_map};
ghost use Rattle.vr_types.specs.Fields.{two, IsArea};
ghost use Rattle.vr_seqset.specs.Entry.{entry_bytes};
ghost use Rattle.vr_seqset.specs.SequenceSet.{block_of_record, spelling, HasFields};
ghost use Rattle.vr_seqset.specs.Reading.{record_in};
ghost use Rattle.vr_seqset.specs.Writing.{with_entry};
ghost use Rattle.vr_seqset.specs.Writer.{begun_by};

use crate::head::SeqHead;
use vr_types::{area_field, two_at};

/// Writes the head, the low place, and zeros after them. Answers where the low place ends.
pub(crate) fn put_head(head: &SeqHead<'_>, out: &mut [u8]) -> usize
    requires room { length (spelling (begun_by head.now)) ≤ length out.old }
    requires most { length out.old ≤ 32768 }
    requires fields { HasFields (begun_by head.now) }
    ensures spelled { out.new ≡ block_of_record (length out.old) (begun_by head.now) }
    ensures end { result ≡ length (spelling (begun_by head.now)) }
{
    let place = head.low.len();
    let k = (place as u16).to_be_bytes();
    let p = head.part.to_be_bytes();
    let n = area_field(head.next).to_be_bytes();
    let t = head.top.to_be_bytes();
    let x = area_field(head.index_area).to_be_bytes();
    let flag = flag_of(head.first);
    let bytes = [
        b'S', flag, 0, 0, 0, 0, k[0], k[1], p[0], p[1], p[2], p[3], n[0], n[1], n[2], n[3], t[0],
        t[1], t[2], t[3], x[0], x[1], x[2], x[3], 0, 0, 0, 0, 0, 0, 0, 0,
    ];
    let (fields, rest) = out.split_at_mut(32);
    fields.copy_from_slice(&bytes);
    let (low, free) = rest.split_at_mut(place);
    low.copy_from_slice(head.low);
    free.fill(0);
    32 + place
}

/// The flag of the first of a chain.
fn flag_of(first: bool) -> u8
    ensures { result ≡ (if first then 1 else 0) }
{
    if first { 1 } else { 0 }
}

/// Writes an entry after the others, which end at `end`, and counts it. Answers where it ends.
pub(crate) fn put_entry(block: &mut [u8], end: usize, intervals: &[u16], high: &[u8]) -> usize
    requires spelled { block.old ≡ block_of_record (length block.old) (record_in block.old) }
    requires end { end ≡ length (spelling (record_in block.old)) }
    requires room { length (spelling
        (with_entry (record_in block.old) intervals.now high.now)) ≤ length block.old }
    requires most { length block.old ≤ 32768 }
    ensures spelled { block.new
        ≡ block_of_record (length block.old)
        (with_entry (record_in block.old) intervals.now high.now) }
    ensures end { result ≡ length
        (spelling (with_entry (record_in block.old) intervals.now high.now)) }
{
    let count = (two_at(block, 2) + 1).to_be_bytes();
    block[2] = count[0];
    block[3] = count[1];
    let (_, free) = block.split_at_mut(end);
    end + put_bytes(free, intervals, high)
}

/// Writes the bytes of an entry. Answers how many there are.
fn put_bytes(free: &mut [u8], intervals: &[u16], high: &[u8]) -> usize
    requires room { 2 + 2 * length intervals.now + length high.now ≤ length free.old }
    requires most { length free.old ≤ 32768 }
    ensures bytes { free.new ≡ entry_bytes
        (record { intervals = intervals.now; high = high.now }) ++ drop result free.old }
    ensures length { result ≡ length
        (entry_bytes (record { intervals = intervals.now; high = high.now })) }
{
    let (count, rest) = free.split_at_mut(2);
    count.copy_from_slice(&(intervals.len() as u16).to_be_bytes());
    let (numbers, rest) = rest.split_at_mut(2 * intervals.len());
    put_numbers(numbers, intervals);
    let (place, _) = rest.split_at_mut(high.len());
    place.copy_from_slice(high);
    2 + 2 * intervals.len() + high.len()
}

/// Writes numbers one after another.
fn put_numbers(out: &mut [u8], numbers: &[u16])
    requires { length out.old ≡ 2 * length numbers.now }
    ensures { out.new ≡ flat_map two numbers.now }
{
    for (i, number) in numbers.iter().enumerate() {
        let bytes = number.to_be_bytes();
        out[2 * i] = bytes[0];
        out[2 * i + 1] = bytes[1];
    }
}
