//! Laws of the lines of a record.
ghost use Rattle.std.specs.Prelude.{◌≡◌, ℕ, List};
ghost use Rattle.vr_amsparse.specs.declared.command.PrintForm.{PrintForm as Form};
ghost use Rattle.vr_ams_print.specs.Lines.{chunks_of, joined, line_size};

/// In each form the lines of a record show each of its bytes once, in order.
pub fn each_byte_is_shown_once()
    ensures { (form : Form) (bytes : List ℕ) → joined (chunks_of (line_size form) bytes) ≡ bytes }
{}
