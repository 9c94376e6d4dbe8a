//! A record's bytes, added to the log.
ghost use Rattle.std.specs.Prelude.{◌≡◌, ◌<◌, ◌≤◌, ◌+◌, ◌++◌, ◌∷◌, ◌^◌, ℕ, List, length, IsTrue};
ghost use Rattle.std.specs.Prelude.{OnOk, OnErr, IfSome, None};
ghost use Rattle.vr_types.specs.Faults.{HasWriteCause};
ghost use Rattle.vr_types.specs.Fields.{four, two};
ghost use Rattle.vr_log.specs.Live.{live_after};
ghost use Rattle.vr_log.specs.LogNow.{LogNow};
ghost use Rattle.vr_log.specs.Memory.{IsTail};
ghost use Rattle.vr_types.specs.declared.geometry.Geometry.{Geometry};
ghost use Rattle.vr_log.specs.Records.{HasLengths, HasFields, IsUnit, record_bytes, unit_bytes};
ghost use Rattle.vr_log.specs.Records.{end_number, old_bytes};
ghost use Rattle.vr_log.specs.Writing.{IsSafe, IsSound, IsPassedBy, position, HasRoom, IsReady};
ghost use Rattle.vr_log.specs.Writing.{IsPrefix, IsWriting, IsKeptBy, Follows, Ends};

use crate::live::Live;
use crate::record::{EndKind, LogRecord};
use crate::tail::Tail;
use vr_types::{Blocks, Bytes, DeviceFault, PartNo, Unit};

/// Adds a record, and puts each block that its bytes fall into.
fn write_record<B: Blocks>(
    tail: &mut Tail,
    blocks: &mut B,
    rec: &LogRecord,
) -> Result<(), DeviceFault>
    requires safe { IsSafe tail.old (B.seen blocks.old) }
    requires ready { IsReady tail.old }
    requires lengths { HasLengths rec.now }
    requires room { HasRoom tail.old (length (record_bytes rec.now)) }
    ensures fields { HasFields rec.now }
    ensures safe { OnOk result (IsSafe tail.new (B.seen blocks.new)) }
    ensures ready { OnOk result (IsReady tail.new) }
    ensures position { OnOk result (position tail.new
        ≡ position tail.old + length (record_bytes rec.now)) }
    ensures same { IsKeptBy tail.old tail.new }
    ensures writing { (log : LogNow) (total written : List ℕ)
        → IsWriting log total written tail.old B.tells (B.seen blocks.old)
        → IsPrefix (written ++ record_bytes rec.now) total → Follows B.tells log total
        (written ++ record_bytes rec.now) tail.new (B.seen blocks.old) (B.seen blocks.new) result }
    ensures cause { HasWriteCause (B.faults blocks.old) (B.faults blocks.new) result }
{
    match rec {
        LogRecord::Before {
            unit,
            part,
            place,
            old,
        } => {
            let place = place.as_slice();
            let head = before_head(*unit, *part, place.len() as u16);
            add_both(tail, blocks, &head, place)?;
            write_old(tail, blocks, old)
        }
        LogRecord::End { unit, kind } => tail.add(blocks, &end_bytes(*unit, *kind)),
    }
}

/// Adds a record, and puts every block that its bytes fall into.
pub(crate) fn put_record<B: Blocks>(
    tail: &mut Tail,
    blocks: &mut B,
    rec: &LogRecord,
) -> Result<(), DeviceFault>
    requires safe { IsSafe tail.old (B.seen blocks.old) }
    requires ready { IsReady tail.old }
    requires lengths { HasLengths rec.now }
    requires room { HasRoom tail.old (length (record_bytes rec.now)) }
    ensures fields { HasFields rec.now }
    ensures ready { OnOk result (IsReady tail.new) }
    ensures same { IsKeptBy tail.old tail.new }
    ensures ending { (log : LogNow) (total written : List ℕ)
        → IsWriting log total written tail.old B.tells (B.seen blocks.old)
        → written ++ record_bytes rec.now ≡ total
        → Ends B.tells log total tail.new (B.seen blocks.old) (B.seen blocks.new) result }
    ensures cause { HasWriteCause (B.faults blocks.old) (B.faults blocks.new) result }
{
    write_record(tail, blocks, rec)?;
    tail.finish(blocks)?;
    Ok(())
}

/// Adds what was at the place of a before-image.
fn write_old<B: Blocks>(
    tail: &mut Tail,
    blocks: &mut B,
    old: &Option<Bytes>,
) -> Result<(), DeviceFault>
    requires safe { IsSafe tail.old (B.seen blocks.old) }
    requires ready { IsReady tail.old }
    requires lengths { IfSome old.now (λ bytes. length bytes < 2 ^ 32) }
    requires room { HasRoom tail.old (length (old_bytes old.now)) }
    ensures safe { OnOk result (IsSafe tail.new (B.seen blocks.new)) }
    ensures ready { OnOk result (IsReady tail.new) }
    ensures position { OnOk result (position tail.new
        ≡ position tail.old + length (old_bytes old.now)) }
    ensures same { IsKeptBy tail.old tail.new }
    ensures writing { (log : LogNow) (total written : List ℕ)
        → IsWriting log total written tail.old B.tells (B.seen blocks.old)
        → IsPrefix (written ++ old_bytes old.now) total → Follows B.tells log total
        (written ++ old_bytes old.now) tail.new (B.seen blocks.old) (B.seen blocks.new) result }
    ensures cause { HasWriteCause (B.faults blocks.old) (B.faults blocks.new) result }
{
    match old {
        None => {
            let none = none_bytes();
            tail.add(blocks, &none)
        }
        Some(bytes) => {
            let bytes = bytes.as_slice();
            add_both(tail, blocks, &old_head(bytes.len() as u32), bytes)
        }
    }
}

/// Adds bytes, and then others.
fn add_both<B: Blocks>(
    tail: &mut Tail,
    blocks: &mut B,
    first: &[u8],
    second: &[u8],
) -> Result<(), DeviceFault>
    requires safe { IsSafe tail.old (B.seen blocks.old) }
    requires ready { IsReady tail.old }
    requires room { HasRoom tail.old (length (first.now ++ second.now)) }
    ensures safe { OnOk result (IsSafe tail.new (B.seen blocks.new)) }
    ensures ready { OnOk result (IsReady tail.new) }
    ensures position { OnOk result (position tail.new
        ≡ position tail.old + length (first.now ++ second.now)) }
    ensures same { IsKeptBy tail.old tail.new }
    ensures writing { (log : LogNow) (total written : List ℕ)
        → IsWriting log total written tail.old B.tells (B.seen blocks.old)
        → IsPrefix (written ++ (first.now ++ second.now)) total → Follows B.tells log total
        (written ++ (first.now ++ second.now)) tail.new (B.seen blocks.old)
        (B.seen blocks.new) result }
    ensures cause { HasWriteCause (B.faults blocks.old) (B.faults blocks.new) result }
{
    tail.add(blocks, first)?;
    tail.add(blocks, second)
}

/// Passes over a record that stands on the blocks.
pub(crate) fn pass_record(tail: &mut Tail, rec: &LogRecord)
    requires sound { IsSound tail.old }
    requires ready { IsReady tail.old }
    requires lengths { HasLengths rec.now }
    requires room { HasRoom tail.old (length (record_bytes rec.now)) }
    ensures sound { IsSound tail.new }
    ensures ready { IsReady tail.new }
    ensures position { position tail.new ≡ position tail.old + length (record_bytes rec.now) }
    ensures same { IsPassedBy tail.old tail.new }
    ensures passed { (geometry : Geometry) (written : List ℕ) → IsTail geometry written tail.old
        → IsTail geometry (written ++ record_bytes rec.now) tail.new }
{
    match rec {
        LogRecord::Before {
            unit,
            part,
            place,
            old,
        } => {
            let place = place.as_slice();
            let head = before_head(*unit, *part, place.len() as u16);
            pass_both(tail, &head, place);
            pass_old(tail, old);
        }
        LogRecord::End { unit, kind } => tail.pass(&end_bytes(*unit, *kind)),
    }
}

/// Passes over what was at the place of a before-image.
fn pass_old(tail: &mut Tail, old: &Option<Bytes>)
    requires sound { IsSound tail.old }
    requires ready { IsReady tail.old }
    requires lengths { IfSome old.now (λ bytes. length bytes < 2 ^ 32) }
    requires room { HasRoom tail.old (length (old_bytes old.now)) }
    ensures sound { IsSound tail.new }
    ensures ready { IsReady tail.new }
    ensures position { position tail.new ≡ position tail.old + length (old_bytes old.now) }
    ensures same { IsPassedBy tail.old tail.new }
    ensures passed { (geometry : Geometry) (written : List ℕ) → IsTail geometry written tail.old
        → IsTail geometry (written ++ old_bytes old.now) tail.new }
{
    match old {
        None => {
            let none = none_bytes();
            tail.pass(&none);
        }
        Some(bytes) => {
            let bytes = bytes.as_slice();
            pass_both(tail, &old_head(bytes.len() as u32), bytes);
        }
    }
}

/// Passes over bytes, and then over others.
fn pass_both(tail: &mut Tail, first: &[u8], second: &[u8])
    requires sound { IsSound tail.old }
    requires ready { IsReady tail.old }
    requires room { HasRoom tail.old (length (first.now ++ second.now)) }
    ensures sound { IsSound tail.new }
    ensures ready { IsReady tail.new }
    ensures position { position tail.new ≡ position tail.old + length (first.now ++ second.now) }
    ensures same { IsPassedBy tail.old tail.new }
    ensures passed { (geometry : Geometry) (written : List ℕ) → IsTail geometry written tail.old
        → IsTail geometry (written ++ (first.now ++ second.now)) tail.new }
{
    tail.pass(first);
    tail.pass(second);
}

/// The bytes of a before-image before its place.

fn before_head(unit: Unit, part: PartNo, length: u16) -> [u8; 15]
    ensures bytes { result ≡ 1 ∷ unit_bytes unit ++ four part.0 ++ two length }
    ensures unit { IsUnit unit }
    ensures part { part.0 < 4294967296 }
{
    let [a, b, c, d] = unit.deck.to_be_bytes();
    let [e, f, g, h] = unit.number.to_be_bytes();
    let [i, j, k, l] = part.0.to_be_bytes();
    let [m, n] = length.to_be_bytes();
    [1, a, b, c, d, e, f, g, h, i, j, k, l, m, n]
}

/// The bytes of an end record.
fn end_bytes(unit: Unit, kind: EndKind) -> [u8; 9]
    ensures bytes { result ≡ end_number kind ∷ unit_bytes unit }
    ensures unit { IsUnit unit }
{
    let number = number_of(kind);
    let [a, b, c, d] = unit.deck.to_be_bytes();
    let [e, f, g, h] = unit.number.to_be_bytes();
    [number, a, b, c, d, e, f, g, h]
}

/// The number of an end record.
fn number_of(kind: EndKind) -> u8
    ensures { result ≡ end_number kind }
{
    match kind {
        EndKind::Committed => 2,
        EndKind::BackedOut => 3,
    }
}

/// The bytes where there was no record.
#[tactic(auto, unfolding(crate::specs::Records::old_bytes))]
fn none_bytes() -> [u8; 5]
    ensures { result ≡ old_bytes None }
{
    [0; 5]
}

/// The bytes before an old record.
fn old_head(length: u32) -> [u8; 5]
    ensures { result ≡ 1 ∷ four length }
{
    let [a, b, c, d] = length.to_be_bytes();
    [1, a, b, c, d]
}

/// The bytes that a record takes.
pub(crate) fn record_length(rec: &LogRecord) -> u64
    requires { HasLengths rec.now }
    ensures value { result ≡ length (record_bytes rec.now) }
    ensures most { result < 4294967296 + 65556 }
{
    match rec {
        LogRecord::Before { place, old, .. } => {
            let place = place.as_slice();
            20 + place.len() as u64 + old_length(old)
        }
        LogRecord::End { .. } => 9,
    }
}

/// The bytes of an old record.
fn old_length(old: &Option<Bytes>) -> u64
    requires { IfSome old.now (λ bytes. length bytes < 2 ^ 32) }
    ensures value { result + 5 ≡ length (old_bytes old.now) }
    ensures most { result < 4294967296 }
{
    match old {
        None => 0,
        Some(bytes) => bytes.len() as u64,
    }
}

/// The live units after a record.
#[tactic(auto, unfolding(crate::specs::Live::live_after))]
pub(crate) fn note_unit(live: &mut Live, rec: &LogRecord)
    requires { length live.old.units < live.old.room }
    ensures units { live.new.units ≡ live_after live.old.units rec.now }
    ensures room { live.new.room ≡ live.old.room }
{
    match rec {
        LogRecord::Before { unit, .. } => {
            if !live.has(*unit) {
                live.add(*unit);
            }
        }
        LogRecord::End { unit, .. } => live.remove(*unit),
    }
}
