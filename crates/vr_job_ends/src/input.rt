//! The reading of an input to its end.
ghost use Rattle.std.specs.Prelude.{◌≡◌, ◌+◌, ◌^◌, ◌<◌, ◌≤◌, length, take, vec_len, IfOk, IfErr};
ghost use Rattle.std.specs.Prelude.{OnOk};
ghost use Rattle.std.specs.Io.KnownBytes.{IsAtEnd};
ghost use Rattle.vr_types.specs.Faults.{CountsFault};
ghost use Rattle.vr_job_ends.specs.Input.{IsAll, CauseOf, ReadsAfter};

use std::alloc::{AllocError, Global};
use vr_outside::Source;
use vr_types::Failed;

/// The longest job text, in bytes: 64 MiB.
pub const TEXT_LIMIT: usize = 1 << 26;

/// How many bytes the first piece of a text may have.
const FIRST_PIECE: usize = 1 << 16;

/// Why an input wasn't read to its end.
#[derive(Clone, Copy, PartialEq, Eq)]
pub enum InputFault {
    /// The source failed.
    Read,
    /// More than 64 MiB came.
    TooLong,
    /// Memory ran out.
    Memory,
}

impl From<AllocError> for InputFault {
    ghost use Rattle.std.specs.Prelude.{◌≡◌};
    ghost use Rattle.vr_job_ends.specs.declared.input.InputFault.TheVariants.{Memory};

    ghost from_gives = { λ _ fault. fault ≡ Memory };

    fn from(_error: AllocError) -> InputFault {
        InputFault::Memory
    }
}

/// Reads a source to its end, straight into the text's own buffer.
#[tactic(auto, using(crate::proofs::Readings::reads_join, crate::proofs::Readings::reads_end))]
pub fn read_text<S: Source>(alloc: Global, source: &mut S) -> Result<Vec<u8>, InputFault>
    ensures text { IfOk result (λ text. IsAll (S.left source.old) (S.left source.new) text.items) }
    ensures fault { IfErr result
        (CauseOf (S.left source.old) (S.faults source.old) (S.faults source.new)) }
    ensures steady { OnOk result (S.faults source.new ≡ S.faults source.old) }
    ensures never_falls { S.faults source.old ≤ S.faults source.new }
{
    let mut text = Vec::new(alloc);
    let mut filled = 0usize;
    while filled <= TEXT_LIMIT {
        if filled == text.len() {
            grow(&mut text)?;
        }
        match read_after(source, text.as_mut_slice(), filled) {
            Err(_) => return Err(InputFault::Read),
            Ok(0) => {
                text.truncate(filled);
                return Ok(text);
            }
            Ok(n) => filled += n,
        }
    }
    Err(InputFault::TooLong)
}

/// Reads more of the text after the bytes that it has.
fn read_after<S: Source>(source: &mut S, buffer: &mut [u8], filled: usize) -> Result<usize, Failed>
    requires { filled ≤ length buffer.old }
    ensures within { IfOk result (λ n. filled + n ≤ length buffer.old) }
    ensures bytes { IfOk result
        (λ n. ReadsAfter (S.left source.old) (S.left source.new) (take filled buffer.old)
        (take (filled + n) buffer.new)) }
    ensures end { IfOk result
        (λ n. n ≡ 0 → filled < length buffer.old → IsAtEnd (S.left source.old)) }
    ensures cause { CountsFault (S.faults source.old) (S.faults source.new) result }
{
    source.read(&mut buffer[filled..])
}

/// Makes room for more of the text, up to one byte past the limit.
fn grow(text: &mut Vec<u8>) -> Result<(), AllocError>
    requires { vec_len text.old ≤ 2 ^ 26 }
    ensures longer { OnOk result (vec_len text.old < vec_len text.new) }
    ensures limit { OnOk result (vec_len text.new ≤ 2 ^ 26 + 1) }
    ensures kept { OnOk result (take (vec_len text.old) text.new.items ≡ text.old.items) }
{
    let longer = (text.len() * 2).max(FIRST_PIECE).min(TEXT_LIMIT + 1);
    text.resize(longer, 0)
}
