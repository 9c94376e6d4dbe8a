//! Writing a segment of a spanned record.

ghost use Rattle.std.specs.Prelude.{◌≡◌, ◌+◌, ◌-◌, ◌<◌, ◌≤◌, ◌↔◌, ◌⊎◌, [], ◌∷◌, length, IsErr};
ghost use Rattle.std.specs.Prelude.{OnOk, OnErr, IfErr};
ghost use Rattle.vr_ci_match.specs.declared.form.Shape.TheVariants as shapes;
ghost use Rattle.vr_types.specs.BlockSize.{IsBlockSize};
ghost use Rattle.vr_ci.specs.Interval.{IsInterval};
ghost use Rattle.vr_ci.specs.Writer.{written, Fills};

use crate::no_room::NoRoom;
use crate::put::{put_cidf, put_item, put_rdf, put_zeros};
use vr_ci_match::{Form, Piece, Rdf};

/// Writes a segment of a spanned record, with the record's update number, into a block, whatever it
/// held before. Of a withdrawn record the length alone is kept.
///
/// `NoRoom` comes exactly where there are no bytes, or more than the block's size less 10. Nothing
/// is changed then.
pub fn write_segment(
    piece: Piece,
    number: u16,
    live: bool,
    bytes: &[u8],
    busy: bool,
    out: &mut [u8],
) -> Result<(), NoRoom>
    requires size { IsBlockSize (length out.old) }
    requires number { 0 < number }
    requires fills { Fills piece (length out.old) (length bytes.now) }
    // It is a segment in either form.
    ensures ok { (form : Form) → OnOk result (IsInterval form out.new
        (record {
          shape = shapes.Segment piece number;
          items = written bytes.now live ∷ [];
          busy = busy;
        })) }
    ensures full { IsErr result ↔
        ((length bytes.now ≡ 0) ⊎ (length out.old - 10 < length bytes.now)) }
    ensures room { IfErr result
        (λ e. (e.need ≡ length bytes.now) × (e.free ≡ length out.old - 10)) }
    ensures err { OnErr result (out.new ≡ out.old) }
{
    let need = bytes.len();
    let free = out.len() - 10;
    if need == 0 || need > free {
        return Err(NoRoom { need, free });
    }
    put_item(out, 0, bytes, live);
    put_zeros(out, need, free);
    put_rdf(
        out,
        free,
        Rdf::Segment {
            piece,
            live,
            number,
            length: need as u16,
        },
    );
    put_cidf(out, need, free - need, busy);
    Ok(())
}
