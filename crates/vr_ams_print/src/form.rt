//! How many bytes a line of PRINT shows.
ghost use Rattle.std.specs.Prelude.{◌≡◌, ◌<◌};
ghost use Rattle.vr_ams_print.specs.Lines as stated;

use vr_amsparse::PrintForm;

/// How many bytes a line shows.
pub(crate) fn line_size(form: PrintForm) -> usize
    ensures size { result ≡ stated.line_size form }
    ensures some { 0 < result }
{
    match form {
        PrintForm::Character => 120,
        PrintForm::Hex => 60,
        PrintForm::Dump => 16,
    }
}
