//! Bytes as characters and as hexadecimal digits.
ghost use Rattle.std.specs.Prelude.{◌≡◌, ◌<◌, ◌-◌, ◌++◌, length, replicate, true, OnOk};
ghost use Rattle.std.specs.Fmt.{digit_glyph};
ghost use Rattle.vr_ams_print.specs.Texts as stated;

use vr_types::{Bytes, OutOfMemory};

/// Writes bytes as characters.
pub(crate) fn write_characters(out: &mut Bytes, bytes: &[u8]) -> Result<(), OutOfMemory>
    ensures { OnOk result (out.new ≡ out.old ++ stated.characters bytes.now) }
{
    for byte in bytes {
        out.push(character(*byte))?;
    }
    Ok(())
}

/// A byte as a character: a period for one that can't be printed.
fn character(byte: u8) -> u8
    ensures { result ≡ stated.character byte }
{
    if (b' '..=b'~').contains(&byte) {
        byte
    } else {
        b'.'
    }
}

/// Writes each byte as two digits.
pub(crate) fn write_digits(out: &mut Bytes, bytes: &[u8]) -> Result<(), OutOfMemory>
    ensures { OnOk result (out.new ≡ out.old ++ stated.digits bytes.now) }
{
    for byte in bytes {
        out.extend(&[digit(*byte / 16), digit(*byte % 16)])?;
    }
    Ok(())
}

/// The digit of a number below 16, in upper case.
fn digit(value: u8) -> u8
    requires { value < 16 }
    ensures { result ≡ digit_glyph true value }
{
    if value < 10 {
        b'0' + value
    } else {
        b'A' + (value - 10)
    }
}

/// Writes an offset in six digits.
pub(crate) fn write_offset(out: &mut Bytes, offset: usize) -> Result<(), OutOfMemory>
    ensures { OnOk result (out.new ≡ out.old ++ stated.offset_digits offset) }
{
    let number = (offset as u64).to_be_bytes();
    write_digits(out, &number[5..])
}

/// Writes blanks up to `size` bytes from `from` on.
pub(crate) fn pad(out: &mut Bytes, from: usize, size: usize) -> Result<(), OutOfMemory>
    ensures { OnOk result (out.new ≡ out.old ++ replicate (size - (length out.old - from)) 32) }
{
    let missing = size.saturating_sub(out.len().saturating_sub(from));
    for _ in 0..missing {
        out.push(b' ')?;
    }
    Ok(())
}
