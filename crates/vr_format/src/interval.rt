//! The interval of a part that has one in use.
ghost use Rattle.std.specs.Prelude.{◌≡◌, ◌*◌, ◌-◌, ◌≤◌, false, length, map};
ghost use Rattle.vr_types.specs.BlockSize.{IsBlockSize};
ghost use Rattle.vr_ci_match.specs.declared.form.Form.TheVariants.{Plain};
ghost use Rattle.vr_ci_match.specs.declared.form.Shape.TheVariants as shapes;
ghost use Rattle.vr_ci.specs.Interval.{IsInterval};
ghost use Rattle.vr_format.specs.Planned.{item_of};

use vr_catalog::{CatEntry, RECORD_LENGTH, write_entry};
use vr_ci::{CiWriter, Form};

/// Writes an interval of the records of these entries into a block.
pub(crate) fn write_interval(entries: &[CatEntry], out: &mut [u8])
    requires size { IsBlockSize (length out.old) }
    requires room { 207 * length entries.now ≤ length out.old - 4 }
    ensures { IsInterval Plain out.new (record {
      shape = shapes.Records;
      items = map item_of entries.now;
      busy = false;
    }) }
{
    let mut writer = CiWriter::begin(Form::Plain, out);
    for entry in entries {
        let mut record = [0; RECORD_LENGTH];
        write_entry(entry, &mut record);
        if writer.add(&record, true).is_err() {
            return;
        }
    }
    writer.end(false);
}
