//! Writing all of some bytes.
ghost use Rattle.std.specs.Prelude.{◌≡◌, ℕ, ◌<◌, ◌≤◌, length, take, OnOk, OnErr};
ghost use Rattle.vr_outside.specs.Told.{Takes, TakesPart};

use crate::sink::Sink;
use vr_types::Failed;

/// Writes all of these bytes, in as many calls as the sink wants. `Failed` comes only where the
/// sink's faults rose, at a call that failed or took nothing; then the sink has taken a prefix of
/// them.
pub fn write_whole<K: Sink>(sink: &mut K, bytes: &[u8]) -> Result<(), Failed>
    ensures taken { OnOk result (Takes (K.taken sink.old) (K.taken sink.new) bytes.now) }
    ensures steady { OnOk result (K.faults sink.new ≡ K.faults sink.old) }
    ensures prefix { OnErr result (TakesPart (K.taken sink.old) (K.taken sink.new) bytes.now) }
    ensures cause { OnErr result (K.faults sink.old < K.faults sink.new) }
{
    let mut at = 0;
    while at < bytes.len() {
        let n = sink.write(&bytes[at..])?;
        if n == 0 {
            return Err(Failed);
        }
        at += n;
    }
    Ok(())
}
