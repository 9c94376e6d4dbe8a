//! Writing the spelling of bytes.
ghost use Rattle.std.specs.Prelude.{◌≡◌, ◌==◌, ℕ, ◌<◌, ◌++◌, true, List, codes, length, take, OnOk};
ghost use Rattle.std.specs.Prelude.{OnErr};
ghost use Rattle.std.specs.Fmt.{digit_glyph};
ghost use Rattle.std.specs.List.{flat_map, list_all, list_any};
ghost use Rattle.vr_text.specs.Literal.{doubled, digit_pair, is_printable, character_form};
ghost use Rattle.vr_text.specs.Literal.{hexadecimal_form, literal_of};

use vr_types::{Bytes, OutOfMemory};

/// Adds the one spelling of the bytes at the end: `C'..'` with each quote doubled where all are
/// from X'20' to X'7E', else `X'..'` in upper case. Where memory runs out, `out` is as it was.
pub fn write_literal(bytes: &[u8], out: &mut Bytes) -> Result<(), OutOfMemory>
    ensures ok { OnOk result (out.new ≡ out.old ++ literal_of bytes.now) }
    ensures err { OnErr result (out.new ≡ out.old) }
{
    let start = out.len();
    let written = write_form(bytes, out);
    if written.is_err() {
        out.truncate(start);
    }
    written
}

/// Adds the one spelling, or a part of it.
fn write_form(bytes: &[u8], out: &mut Bytes) -> Result<(), OutOfMemory>
    ensures ok { OnOk result (out.new ≡ out.old ++ literal_of bytes.now) }
    ensures err { OnErr result (take (length out.old) out.new ≡ out.old) }
{
    if are_printable(bytes) {
        write_characters(bytes, out)
    } else {
        write_digits(bytes, out)
    }
}

/// Whether all can be printed.
fn are_printable(bytes: &[u8]) -> bool
    ensures { result ≡ list_all is_printable bytes.now }
{
    bytes.iter().all(|byte| is_printable(*byte))
}

/// Whether a byte can be printed: X'20' to X'7E'.
fn is_printable(byte: u8) -> bool
    ensures { result ≡ is_printable byte }
{
    (b' '..=b'~').contains(&byte)
}

/// Whether one of the bytes is a quote.
fn has_quote(bytes: &[u8]) -> bool
    ensures { result ≡ list_any (λ b. b == 39) bytes.now }
{
    bytes.iter().any(|byte| *byte == b'\'')
}

/// Adds the bytes, each quote doubled, or a part of them.
fn write_doubled(bytes: &[u8], out: &mut Bytes) -> Result<(), OutOfMemory>
    ensures ok { OnOk result (out.new ≡ out.old ++ doubled bytes.now) }
    ensures err { OnErr result (take (length out.old) out.new ≡ out.old) }
{
    for byte in bytes {
        if *byte == b'\'' {
            out.push(b'\'')?;
        }
        out.push(*byte)?;
    }
    Ok(())
}

/// The same, at once where there is no quote.
fn write_inside(bytes: &[u8], out: &mut Bytes) -> Result<(), OutOfMemory>
    ensures ok { OnOk result (out.new ≡ out.old ++ doubled bytes.now) }
    ensures err { OnErr result (take (length out.old) out.new ≡ out.old) }
{
    if has_quote(bytes) {
        write_doubled(bytes, out)
    } else {
        out.extend(bytes)
    }
}

/// Adds `C'..'`, or a part of it.
fn write_characters(bytes: &[u8], out: &mut Bytes) -> Result<(), OutOfMemory>
    ensures ok { OnOk result (out.new ≡ out.old ++ character_form bytes.now) }
    ensures err { OnErr result (take (length out.old) out.new ≡ out.old) }
{
    out.extend(b"C'")?;
    write_inside(bytes, out)?;
    out.push(b'\'')
}

/// Adds `X'..'`, or a part of it.
fn write_digits(bytes: &[u8], out: &mut Bytes) -> Result<(), OutOfMemory>
    ensures ok { OnOk result (out.new
        ≡ out.old ++ hexadecimal_form (flat_map digit_pair bytes.now)) }
    ensures err { OnErr result (take (length out.old) out.new ≡ out.old) }
{
    out.extend(b"X'")?;
    for byte in bytes {
        out.extend(&[digit(*byte / 16), digit(*byte % 16)])?;
    }
    out.push(b'\'')
}

/// The digit of a number below 16, in upper case.
fn digit(value: u8) -> u8
    requires { value < 16 }
    ensures { result ≡ digit_glyph true value }
{
    if value < 10 {
        b'0' + value
    } else {
        b'A' + (value - 10)
    }
}
