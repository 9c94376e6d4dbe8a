//! An iterator over the records of a control interval.

ghost use Rattle.std.specs.Prelude.{◌≡◌, Bool, List, [], MatchOption, ℕ};
ghost use Rattle.std.specs.Iterator.{YieldsFirstBy, item_count};
ghost use Rattle.vr_ci_match.specs.declared.form.Shape.{Shape};
ghost use Rattle.vr_ci.specs.Reading.{AreLent, IsShown, IsNextBatch, value_in, marks_left};

use std::marker::Model;

/// The records that are left of an RDF or pair, and where it begins.
#[derive(Clone, Copy)]
struct Batch {
    end: usize,
    left: usize,
    length: usize,
    live: bool,
}

/// Records with their live marks, from the left end of a block. Contracts see the items that are
/// still to come.
#[derive(Drop)]
pub struct Records<'a> {
    bytes: &'a [u8],
    low: usize,
    batch: Batch,
    offset: usize,
}

impl<'a> Model for Records<'a> {
    ghost use Rattle.std.specs.Prelude.{List};
    ghost use Rattle.vr_ci.specs.Interval.{Item};

    ghost Value = { List Item };

    ghost use Rattle.vr_ci.specs.Reading.{items_left, AreIn};

    ghost view = { λ r. items_left r.bytes.now r.low r.batch r.offset };

    ghost invariant = { λ r. AreIn r.bytes.now r.low r.batch r.offset };
}

impl<'a> Records<'a> {
    /// The records of a block whose RDFs begin at `low`.
    pub(crate) fn of(bytes: &'a [u8], low: usize) -> Records<'a>
        requires { (count : ℕ) × IsShown bytes.now low count }
        ensures { (shape : Shape) (busy : Bool)
            → result ≡ (value_in bytes.now low shape busy).items }
    {
        Records {
            bytes,
            low,
            batch: Batch {
                end: bytes.len() - 4,
                left: 0,
                length: 0,
                live: false,
            },
            offset: 0,
        }
    }
}

impl<'a> Iterator for Records<'a> {
    type Item = (&'a [u8], bool);

    ghost use Rattle.vr_ci.specs.Reading.{item_lent};

    ghost next_gives = { YieldsFirstBy item_lent (λ rest. rest) };

    ghost remaining = { item_count (λ rest. rest) };

    fn next(&mut self) -> Option<(&'a [u8], bool)> {
        let batch = batch_from(self.bytes, self.low, self.batch)?;
        let start = self.offset;
        self.offset += batch.length;
        self.batch = Batch {
            left: batch.left - 1,
            ..batch
        };
        Some((&self.bytes[start..start + batch.length], batch.live))
    }
}

/// The batch with records left that the next record is of.
fn batch_from(bytes: &[u8], low: usize, batch: Batch) -> Option<Batch>
    requires { AreLent bytes.now low batch.end }
    ensures { MatchOption result (marks_left bytes.now low batch ≡ [])
        (IsNextBatch bytes.now low batch) }
{
    if batch.left > 0 {
        return Some(batch);
    }
    let end = batch.end;
    if end == low {
        return None;
    }
    let flags = bytes[end - 3];
    let length = usize::from(u16::from_be_bytes([bytes[end - 2], bytes[end - 1]]));
    let live = flags & 0x04 == 0;
    if flags < 0x40 {
        return Some(Batch {
            end: end - 3,
            left: 1,
            length,
            live,
        });
    }
    if flags > 0x40 {
        return Some(Batch {
            end: end - 6,
            left: 1,
            length,
            live,
        });
    }
    let count = u16::from_be_bytes([bytes[end - 5], bytes[end - 4]]);
    Some(Batch {
        end: end - 6,
        left: usize::from(count),
        length,
        live,
    })
}
