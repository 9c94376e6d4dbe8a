//! Writing a record over one of its length.

ghost use Rattle.std.specs.Prelude.{◌≡◌, ◌+◌, ◌≤◌, ◌++◌, ◌∷◌, ℕ, List, true, length};
ghost use Rattle.vr_ci_match.specs.declared.form.Form.{Form as CiForm};
ghost use Rattle.vr_ci.specs.Interval.{Interval, Item, IsInterval};
ghost use Rattle.vr_ci.specs.Over.{StandsAt};
ghost use Rattle.vr_ci.specs.Writer.{written};

use crate::put::put_item;

/// Writes a record over a live one of the same length, whose bytes begin at `at`: those of the
/// records before it have so many bytes. What the RDFs and the CIDF say stays, so nothing else of
/// the block changes.
pub fn write_over(out: &mut [u8], at: usize, bytes: &[u8])
    requires { at + length bytes.now ≤ length out.old }
    // An interval has the record in place of the one that stood there, and all else that it had.
    ensures over { (form : CiForm) (value : Interval) (before after : List Item) (old : Item)
        → IsInterval form out.old value
        → StandsAt value.items before old after at (length bytes.now)
        → IsInterval form out.new (record {
          shape = value.shape;
          items = before ++ written bytes.now true ∷ after;
          busy = value.busy;
        }) }
    ensures size { length out.new ≡ length out.old }
{
    put_item(out, at, bytes, true);
}
