//! The lines of a record.
ghost use Rattle.std.specs.Prelude.{◌≡◌, ◌++◌, OnOk};
ghost use Rattle.std.specs.Fork.{slice_chunk};
ghost use Rattle.vr_ams_print.specs.Lines as stated;

use crate::form::line_size;
use crate::texts::{pad, write_characters, write_digits, write_offset};
use vr_amsparse::PrintForm;
use vr_trace::NEW_LINE;
use vr_types::{Bytes, OutOfMemory};

/// Writes the lines that show the bytes of a record.
pub(crate) fn write_lines(out: &mut Bytes, form: PrintForm, bytes: &[u8]) -> Result<(), OutOfMemory>
    ensures { OnOk result (out.new ≡ out.old ++ stated.lines_of form bytes.now) }
{
    let size = line_size(form);
    for number in 0..bytes.len().div_ceil(size) {
        write_line(out, form, number * size, chunk(bytes, size, number))?;
    }
    Ok(())
}

/// Chunk `number` of the bytes: `size` of them, or fewer where they end in it.
fn chunk(bytes: &[u8], size: usize, number: usize) -> &[u8]
    ensures { result.now ≡ slice_chunk bytes.now size number }
{
    let from = number.saturating_mul(size).min(bytes.len());
    let rest = &bytes[from..];
    &rest[..size.min(rest.len())]
}

/// Writes a line.
fn write_line(
    out: &mut Bytes,
    form: PrintForm,
    offset: usize,
    bytes: &[u8],
) -> Result<(), OutOfMemory>
    ensures { OnOk result (out.new ≡ out.old
        ++ stated.line_of form (record { offset = offset; bytes = bytes.now })) }
{
    match form {
        PrintForm::Character => write_characters(out, bytes)?,
        PrintForm::Hex => write_digits(out, bytes)?,
        PrintForm::Dump => write_dump(out, offset, bytes)?,
    }
    out.push(NEW_LINE)
}

/// Writes what a line of DUMP shows.
fn write_dump(out: &mut Bytes, offset: usize, bytes: &[u8]) -> Result<(), OutOfMemory>
    ensures { OnOk result (out.new ≡ out.old
        ++ stated.shown PrintForm.Dump (record { offset = offset; bytes = bytes.now })) }
{
    write_offset(out, offset)?;
    write_groups(out, bytes)?;
    write_framed(out, bytes)
}

/// Writes the digits of a line of DUMP, in groups of four bytes.
fn write_groups(out: &mut Bytes, bytes: &[u8]) -> Result<(), OutOfMemory>
    ensures { OnOk result (out.new ≡ out.old ++ stated.groups bytes.now) }
{
    for number in 0..4 {
        write_group(out, chunk(bytes, 4, number))?;
    }
    Ok(())
}

fn write_group(out: &mut Bytes, bytes: &[u8]) -> Result<(), OutOfMemory>
    ensures { OnOk result (out.new ≡ out.old ++ stated.group bytes.now) }
{
    out.push(b' ')?;
    let from = out.len();
    write_digits(out, bytes)?;
    pad(out, from, 8)
}

/// Writes the characters of a line of DUMP.
fn write_framed(out: &mut Bytes, bytes: &[u8]) -> Result<(), OutOfMemory>
    ensures { OnOk result (out.new ≡ out.old ++ stated.framed bytes.now) }
{
    out.extend(b" *")?;
    let from = out.len();
    write_characters(out, bytes)?;
    pad(out, from, 16)?;
    out.push(b'*')
}
