//! The parts of a new log.
ghost use Rattle.std.specs.Prelude.{◌≡◌, ◌<◌, ◌≤◌, ◌*◌, ◌^◌, [], length, All, false, IfOk};
ghost use Rattle.vr_types.specs.Geometry.{IsAllowed};
ghost use Rattle.vr_types.specs.LogSpace.{log_size};
ghost use Rattle.vr_log.specs.Live.{live_in, used_by};
ghost use Rattle.vr_log.specs.Memory.{AreNumbered, IsTail};
ghost use Rattle.vr_log.specs.Records.{HasFields, bytes_of};
ghost use Rattle.vr_log.specs.Writing.{IsSound, IsReady, IsPassedBy, IsNew};

use crate::live::Live;
use crate::record::LogRecord;
use crate::tail::Tail;
use crate::writing::{note_unit, pass_record};
use std::alloc::Global;
use vr_types::{Geometry, OutOfMemory};

/// The first block of a log, in memory, with no bytes yet.
pub(crate) fn new_tail(
    alloc: Global,
    geometry: Geometry,
    generation: u64,
) -> Result<Tail, OutOfMemory>
    requires { IsAllowed geometry }
    ensures { IfOk result (λ tail. IsNew geometry generation tail) }
{
    let block = vec![in alloc; 0; geometry.size as usize]?;
    Ok(Tail {
        generation,
        block,
        blocks: geometry.log,
        index: 0,
        used: 0,
        begun: false,
    })
}

/// No live unit, with room for those that a log may have: each has a record of 20 bytes or more.
pub(crate) fn new_live(alloc: Global, geometry: Geometry) -> Result<Live, OutOfMemory>
    requires { IsAllowed geometry }
    ensures units { IfOk result (λ live. live.units ≡ []) }
    ensures room { IfOk result (λ live. log_size geometry < 20 * live.room) }
{
    let size = geometry.log as usize * (geometry.size as usize - 16);
    Live::new(alloc, size / 20 + 1)
}

/// The numbers from 1 to that of the last block of the log.
pub(crate) fn numbers_to(alloc: Global, last: u32) -> Result<Vec<u32>, OutOfMemory>
    requires { last < 4294967295 }
    ensures count { IfOk result (λ numbers. length numbers.items ≡ last) }
    ensures each { IfOk result (λ numbers. AreNumbered numbers.items) }
{
    let mut numbers = Vec::with_capacity(alloc, last as usize)?;
    for n in 0..last {
        numbers.push(n + 1)?;
    }
    Ok(numbers)
}

/// Passes over the records of a log, which stand on its blocks.
pub(crate) fn pass_records(
    geometry: Geometry,
    tail: &mut Tail,
    live: &mut Live,
    records: &[LogRecord],
)
    requires allowed { IsAllowed geometry }
    requires sound { IsSound tail.old }
    requires ready { IsReady tail.old }
    requires first { IsTail geometry [] tail.old }
    requires units { live.old.units ≡ [] }
    requires room { log_size geometry < 20 * live.old.room }
    requires fields { All HasFields records.now }
    requires fits { used_by records.now ≤ log_size geometry }
    ensures ready { IsReady tail.new }
    ensures last { IsTail geometry (bytes_of records.now) tail.new }
    ensures same { IsPassedBy tail.old tail.new }
    ensures units { live.new.units ≡ live_in records.now }
    ensures room { live.new.room ≡ live.old.room }
{
    for rec in records {
        pass_record(tail, rec);
        note_unit(live, rec);
    }
}
