//! Writing a part of the records of an interval into another block.
ghost use Rattle.std.specs.Prelude.{◌≡◌, ◌≤◌, IsTrue, length, take, drop};
ghost use Rattle.vr_ci_match.specs.declared.form.Form.TheVariants.{Plain};
ghost use Rattle.vr_ci_match.specs.declared.form.Shape.TheVariants as shapes;
ghost use Rattle.vr_ci.specs.Interval.{Interval, IsInterval};

use vr_ci::{CiView, CiWriter, Form};

/// Writes the records from one number up to another of an interval into a block of its size, busy
/// or not. It answers false where there are no such records, and says nothing of the block then.
pub(crate) fn write_records(
    bytes: &[u8],
    from: usize,
    to: usize,
    busy: bool,
    out: &mut [u8],
) -> bool
    requires { length out.old ≡ length bytes.now }
    ensures { (value : Interval) → IsInterval Plain bytes.now value
        → value.shape ≡ shapes.Records → from ≤ to → to ≤ length value.items
        → IsTrue result × IsInterval Plain out.new (record {
          shape = shapes.Records;
          items = drop from (take to value.items);
          busy = busy;
        }) }
{
    let Ok(view) = CiView::read(Form::Plain, bytes) else {
        return false;
    };
    if view.count() < to || to < from {
        return false;
    }
    let mut writer = CiWriter::begin(Form::Plain, out);
    for i in from..to {
        if writer.add(view.item(i), view.live(i)).is_err() {
            return false;
        }
    }
    writer.end(busy);
    true
}
