//! A source that is read in pieces, each of which is put into the target.
ghost use Rattle.std.specs.Prelude.{◌≡◌, ◌<◌, ◌∷◌, [], length, map, None, true, OnOk};
ghost use Rattle.vr_ams_define.specs.Grown.{AreRunOn};
ghost use Rattle.vr_ams_print.specs.Steps.{IsThere, last_key as key_of_tokey};
ghost use Rattle.vr_ams_repro.specs.Outcomes.{IsReadThrough};
ghost use Rattle.vr_ams_repro.specs.Pieces as stated;
ghost use Rattle.vr_ams_repro.specs.Progress.{begun};
ghost use Rattle.vr_ams_repro.specs.Steps.{IsStill};

use crate::cursor::{Cursor, PIECE_SIZE};
use crate::feeding::feed_records;
use crate::filled::FilledVolume;
use crate::load::Load;
use crate::piece::{Piece, choose_cards};
use crate::progress::Progress;
use std::alloc::Global;
use vr_ams_define::{ReadBack, fault_failure, last_of};
use vr_ams_print::{FoundCluster, last_key, most_of, read_source, skipped};
use vr_amsparse::{ReproCommand, To};
use vr_trace::RunNo;
use vr_types::{Bytes, Place};

/// Puts records into the target.
fn feed_target<V: FilledVolume>(
    alloc: Global,
    volumes: &mut [V],
    load: &Load,
    records: &[(Place, Bytes)],
    progress: &mut Progress,
) -> Result<(), RunNo>
    requires there { IsThere (map V.shown volumes.old) load.now.target }
    requires within { load.now.target.place < length volumes.old }
    ensures fed { OnOk result (stated.AreFedAt V.answers V.replies load.now records.now
        progress.old volumes.old progress.new volumes.new) }
    ensures still { OnOk result
        (IsStill progress.new.fault (map V.shown volumes.old) (map V.shown volumes.new)) }
    ensures ran { AreRunOn V.history V.goes (load.now.line ∷ []) volumes.old volumes.new }
    ensures geometry { map V.geometry volumes.new ≡ map V.geometry volumes.old }
{
    let after = last_of(volumes);
    let number = load.target.place;
    let volume = &mut volumes[number];
    feed_records(alloc, volume, load, after, records, progress)
}

/// Puts a piece that was read into the target; where the device failed, that ends the command.
fn put_piece<V: FilledVolume>(
    alloc: Global,
    volumes: &mut [V],
    load: &Load,
    answer: ReadBack,
    piece: &[(Place, Bytes)],
    cursor: &mut Cursor,
    progress: &mut Progress,
) -> Result<(), RunNo>
    requires there { answer ≡ ReadBack.Done
        → IsThere (map V.shown volumes.old) load.now.target }
    requires within { load.now.target.place < length volumes.old }
    ensures put { OnOk result (stated.IsPiecePut V.answers V.replies load.now answer piece.now
        cursor.old progress.old volumes.old cursor.new progress.new volumes.new) }
    ensures still { OnOk result
        (IsStill progress.new.fault (map V.shown volumes.old) (map V.shown volumes.new)) }
    ensures ran { AreRunOn V.history V.goes (load.now.line ∷ []) volumes.old volumes.new }
    ensures geometry { map V.geometry volumes.new ≡ map V.geometry volumes.old }
{
    match answer {
        ReadBack::Fault(fault) => {
            *progress = progress.ended_with(fault_failure(fault).fault);
            Ok(())
        }
        ReadBack::Done => {
            feed_target(alloc, volumes, load, piece, progress)?;
            Ok(cursor.pass(alloc, piece)?)
        }
    }
}

/// Whether no other piece is read.
fn is_over(cursor: &Cursor, progress: &Progress) -> bool
    ensures { result ≡ stated.is_over cursor.now progress.now }
{
    cursor.over || progress.fault.is_some()
}

/// Reads the next piece of the source, and puts it into the target.
fn next_piece<V: FilledVolume>(
    alloc: Global,
    volumes: &mut [V],
    load: &Load,
    source: &FoundCluster,
    to: &To,
    cursor: &mut Cursor,
    progress: &mut Progress,
) -> Result<(), RunNo>
    requires source { IsThere (map V.shown volumes.old) source.now }
    requires target { IsThere (map V.shown volumes.old) load.now.target }
    ensures put { OnOk result (stated.IsPiece V.answers V.replies load.now source.now
        (key_of_tokey to.now) cursor.old progress.old volumes.old cursor.new progress.new
        volumes.new) }
    ensures still { OnOk result
        (IsStill progress.new.fault (map V.shown volumes.old) (map V.shown volumes.new)) }
    ensures ran { AreRunOn V.history V.goes (load.now.line ∷ []) volumes.old volumes.new }
    ensures geometry { map V.geometry volumes.new ≡ map V.geometry volumes.old }
{
    let size = cursor.left.min(PIECE_SIZE);
    let mut piece = Piece::new(alloc, cursor.skip, size, last_key(alloc, to)?);
    let from = cursor.from.as_ref();
    let answer = read_source(volumes, load.line, source, from, &mut piece)?;
    let records = piece.records.as_slice();
    put_piece(alloc, volumes, load, answer, records, cursor, progress)
}

/// Reads the source through, and puts its records into the target.
fn read_through<V: FilledVolume>(
    alloc: Global,
    volumes: &mut [V],
    load: &Load,
    source: &FoundCluster,
    to: &To,
    cursor: &mut Cursor,
    progress: &mut Progress,
) -> Result<(), RunNo>
    requires going { progress.old.fault ≡ None }
    requires source { IsThere (map V.shown volumes.old) source.now }
    requires target { IsThere (map V.shown volumes.old) load.now.target }
    ensures put { OnOk result (stated.ArePieces V.answers V.replies load.now source.now
        (key_of_tokey to.now) cursor.old progress.old volumes.old cursor.new progress.new
        volumes.new) }
    ensures over { OnOk result (stated.is_over cursor.new progress.new ≡ true) }
    ensures ran { AreRunOn V.history V.goes (load.now.line ∷ []) volumes.old volumes.new }
    ensures geometry { map V.geometry volumes.new ≡ map V.geometry volumes.old }
{
    for _turn in 0..u64::MAX {
        if is_over(cursor, progress) {
            return Ok(());
        }
        next_piece(alloc, volumes, load, source, to, cursor, progress)?;
    }
    // A loop has to have an end, and only where the source is as it was is it proved that each
    // piece goes further. No data set has as many records.
    Err(RunNo::Memory)
}

/// Fills the target from a data set.
pub(crate) fn fill_from<V: FilledVolume>(
    alloc: Global,
    volumes: &mut [V],
    load: &Load,
    source: &FoundCluster,
    command: &ReproCommand,
    progress: &mut Progress,
) -> Result<(), RunNo>
    requires begun { progress.old ≡ begun }
    requires source { IsThere (map V.shown volumes.old) source.now }
    requires target { IsThere (map V.shown volumes.old) load.now.target }
    ensures filled { OnOk result (IsReadThrough V.shown V.answers V.replies load.now source.now
        command.now volumes.old progress.new volumes.new) }
    ensures ran { AreRunOn V.history V.goes (load.now.line ∷ []) volumes.old volumes.new }
    ensures geometry { map V.geometry volumes.new ≡ map V.geometry volumes.old }
{
    let mut cursor = Cursor::new(alloc, command)?;
    read_through(
        alloc,
        volumes,
        load,
        source,
        &command.to,
        &mut cursor,
        progress,
    )
}

/// Fills the target from data cards.
pub(crate) fn fill_from_cards<V: FilledVolume>(
    alloc: Global,
    volumes: &mut [V],
    load: &Load,
    command: &ReproCommand,
    cards: &[Bytes],
    progress: &mut Progress,
) -> Result<(), RunNo>
    requires begun { progress.old ≡ begun }
    requires target { IsThere (map V.shown volumes.old) load.now.target }
    ensures filled { OnOk result (stated.AreFedAt V.answers V.replies load.now
        (stated.of_cards command.now.from command.now.to cards.now) begun volumes.old
        progress.new volumes.new) }
    ensures ran { AreRunOn V.history V.goes (load.now.line ∷ []) volumes.old volumes.new }
    ensures geometry { map V.geometry volumes.new ≡ map V.geometry volumes.old }
{
    let last = last_key(alloc, &command.to)?;
    let mut piece = Piece::new(alloc, skipped(&command.from), most_of(&command.to), last);
    choose_cards(&mut piece, cards)?;
    feed_target(alloc, volumes, load, piece.records.as_slice(), progress)
}
